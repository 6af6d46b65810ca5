ghost use Rattle.hk_emit.specs.Accepted.{AcceptedReads};

use xo_fields::one_header;

/// What is accepted as an emission reads as an emitted transaction, and what the ledger rests on holds of it.
pub fn accepted_reads()
    ensures law { AcceptedReads }
{
    one_header();
}
