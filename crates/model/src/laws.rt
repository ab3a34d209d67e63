// The theorems of the model, each on the contract of a function.
ghost use Rattle.model.specs.Laws.{PartsLawful};
ghost use Rattle.model.specs.Sample.{Happens};
ghost use Rattle.model.specs.Promise.{HistoryTells, CallsDecided};

// The laws of rising part lists, whatever the keys and the details.
pub fn parts_lawful<K, D>()
    ensures { PartsLawful K D }
{}

// The history of a pile settles every answer that it gives, whatever the keys, the details and the heads.
pub fn history_tells<K, D, H>()
    ensures { HistoryTells K D H }
{}

// Every staging, booking and withdrawing has exactly one answer, wherever heads can be compared.
pub fn calls_decided<K, D, H>()
    ensures { CallsDecided K D H }
{}

// The promise is not about nothing: a history that lays, stages, books, is refused and asks does happen.
pub fn history_happens()
    ensures { Happens }
{}
