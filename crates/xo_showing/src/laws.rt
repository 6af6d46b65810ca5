ghost use Rattle.xo_showing.specs.Laws.{NamesBack, OneKey, OneShowing, OneShown, AnyOrder, PutShows};
ghost use Rattle.xo_showing.specs.Worked.{WorkedTexts};

/// A field has a name exactly where the name is that field's.
pub fn names_back()
    ensures law { NamesBack }
{}

/// No two fields have one key.
pub fn one_key()
    ensures law { OneKey }
{}

/// Two objects with one showing are one object, and so are two that one text shows.
pub fn one_showing()
    ensures showing { OneShowing }
    ensures text { OneShown }
{}

/// Members with different keys go in in any order.
pub fn any_order()
    ensures law { AnyOrder }
{}

/// A field put in its place among others shows as a member put among theirs.
pub fn put_shows()
    ensures law { PutShows }
{}

/// Some objects show as the texts that they are to show as.
pub fn worked_texts()
    ensures law { WorkedTexts }
{}
