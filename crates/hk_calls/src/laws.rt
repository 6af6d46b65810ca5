ghost use Rattle.hk_calls.specs.Laws.{LengthStays};

/// Whatever a row gives, the memory keeps its length.
pub fn length_stays()
    ensures law { LengthStays }
{}
