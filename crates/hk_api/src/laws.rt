ghost use Rattle.hk_api.specs.Leads.{CallsLead, CallsKeepLength};

use xo_fields::one_header;

/// Whatever a hook calls, it writes only what it may, lists it, and changes nothing else of the ledger.
pub fn calls_lead()
    ensures law { CallsLead }
    ensures length { CallsKeepLength }
{
    one_header();
}
