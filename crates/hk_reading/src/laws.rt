ghost use Rattle.hk_reading.specs.Laws.{ReadsSo, ReadsOnlySo, TransactionsFound};

/// The function and the relation are one: bytes read as the function says, and as nothing else.
pub fn reads_one_way()
    ensures so { ReadsSo }
    ensures only_so { ReadsOnlySo }
{}

/// The function and the relation of transactions are one, for each type, emitted or not.
pub fn transactions_found()
    ensures law { TransactionsFound }
{}
