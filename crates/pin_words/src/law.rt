ghost use Rattle.pin_words.specs.Laws.{ShowsOneWorld, ShowsSafeWorld, LoadSteps, PinSteps, ReleaseSteps, PublishSteps};
ghost use Rattle.pin_words.specs.Laws.{CloseSteps, ReclaimSteps, FailedReclaimSteps, StoreSteps, ReadSteps};
ghost use Rattle.pin_words.specs.Laws.{GivesReader, GivesBlank, JoinsSeats, PartsSeats, CopiesStay, NotesArePublished};
ghost use Rattle.pin_words.specs.Laws.{TriesPin, LostSeesNoEarlier, StaleStays};

/// The world that the seats make, and what each atomic step does to it.
///
/// A table shows one world but for the order in which it is listed, and that world is safe. Each of the eight steps
/// takes it to its successor by the event named for it, and a failed exchange is a load. Giving, joining and parting
/// seats leaves it as it is. A copy that a reader's view has is one hold of the world, and keeps its slot from being
/// stored to, published and reclaimed. A try to pin that went through made two such steps, and its copy is such a hold.
/// A note is the descriptor that was published with its Id. A lost exchange shows a word that is no earlier than the
/// first look's. An Id that a reader found stale stays stale.
#[tactic(auto, using(crate::proofs::Reseated::joins_shown))]
pub fn law_of_atomic_steps()
    ensures one_world { ShowsOneWorld }
    ensures safe { ShowsSafeWorld }

    ensures load { LoadSteps }
    ensures pin { PinSteps }
    ensures release { ReleaseSteps }
    ensures publish { PublishSteps }
    ensures close { CloseSteps }
    ensures reclaim { ReclaimSteps }
    ensures reclaim_failed { FailedReclaimSteps }
    ensures store_descr { StoreSteps }
    ensures read_descr { ReadSteps }

    ensures gives { GivesReader }
    ensures gives_blank { GivesBlank }
    ensures joins { JoinsSeats }
    ensures parts { PartsSeats }

    ensures held { CopiesStay }
    ensures noted { NotesArePublished }
    ensures pinned { TriesPin }
    ensures lost { LostSeesNoEarlier }
    ensures stale { StaleStays }
{}
