ghost use Rattle.std.specs.Prelude.{◌≡◌};
ghost use Rattle.ob_waits.specs.Rules.{IsReadyAt};
ghost use Rattle.ob_waits.specs.Waits.{settled as waits_settled};
ghost use Rattle.pin_words.specs.Keepers.{KeeperState};
ghost use Rattle.ob_store.specs.Kept.{StoreInvariant, IsPopulated, IsSound};
ghost use Rattle.ob_store.specs.Moves.{OnlyCloses};
ghost use Rattle.ob_store.specs.Parts.{parts_of, scene_in, state_of};
ghost use Rattle.ob_store.specs.Signaled.{IsEnough};
ghost use Rattle.ob_store.specs.State.{State, settled};
ghost use Rattle.ob_store.specs.UnderWay.{IsUnderWay};

use crate::parts::Parts;
use pin_core::Id;
use pin_words::PinKeeper;

impl<K: PinKeeper> Parts<K> {
    /// Settles the waits. Where every slot that may have become signaled is noted, only the waits for those are looked
    /// at, and none where no slot is noted.
    pub(crate) fn settle(&mut self)
        requires sound { IsSound (parts_of self.old) }
        requires populated { IsPopulated self.old.processes.processes self.old.processes.threads }
        requires enough { IsEnough self.old.signaled self.old.objects.seen.bodies self.old.waits.waits }
        ensures value { scene_in self.new ≡ waits_settled (scene_in self.old) }
        ensures kept { StoreInvariant (parts_of self.new) }
        ensures state { (first : KeeperState) (s : State) → IsUnderWay first (parts_of self.old) s
            → state_of (parts_of self.new) ≡ settled s }
        ensures keeper { OnlyCloses self.old.objects.keeper self.new.objects.keeper }
    {
        if self.signaled.is_whole() {
            self.waits
                .settle_after_each(&mut self.objects, self.signaled.ids());
        } else {
            self.waits.settle(&mut self.objects);
        }
    }

    /// Settles the waits, of which only those for one object may be ready.
    pub(crate) fn settle_after(&mut self, id: Id)
        requires sound { IsSound (parts_of self.old) }
        requires populated { IsPopulated self.old.processes.processes self.old.processes.threads }
        requires ready { IsReadyAt id.slot self.old.objects.seen.bodies self.old.waits.waits }
        ensures kept { StoreInvariant (parts_of self.new) }
        ensures state { (first : KeeperState) (s : State) → IsUnderWay first (parts_of self.old) s
            → state_of (parts_of self.new) ≡ settled s }
        ensures keeper { OnlyCloses self.old.objects.keeper self.new.objects.keeper }
    {
        self.waits.settle_after(&mut self.objects, id);
    }
}
