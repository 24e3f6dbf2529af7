ghost use Rattle.std.specs.Prelude.{◌≡◌, ◌<◌, ◌≤◌, IsSome, None, OnErr, OnOk, length, slice_index_or};
ghost use Rattle.ob_store.specs.State.{next_process, next_thread, settled, with_child, with_process, with_thread};

use crate::store::Store;
use pin_words::PinKeeper;
use std::alloc::AllocError;

impl<K: PinKeeper> Store<K> {
    /// Adds the next process number, of a session, with the next thread number.
    pub fn add_process(&mut self, session: u32) -> Result<(), AllocError>
        requires processes { next_process self.old.state ≤ self.old.state.limits.processes }
        requires threads { next_thread self.old.state ≤ self.old.state.limits.threads }
        ensures ok { OnOk result (self.new ≡ record self.old {
          state = settled
              (with_process self.old.state session);
        }) }
        ensures err { OnErr result (self.new ≡ self.old) }
    {
        self.parts.objects.kept();
        let reuse = self.parts.limits.reuse;
        let _ = self
            .parts
            .processes
            .add_process(reuse, session, &mut self.parts.tables, None)?;
        Ok(())
    }

    /// Adds the next thread number, of a live process.
    pub fn add_thread(&mut self, process: u32) -> Result<(), AllocError>
        requires threads { next_thread self.old.state ≤ self.old.state.limits.threads }
        requires live { IsSome (slice_index_or self.old.state.processes process None) }
        ensures ok { OnOk result (self.new ≡ record self.old { state = settled (with_thread self.old.state process) }) }
        ensures err { OnErr result (self.new ≡ self.old) }
    {
        self.parts.objects.kept();
        let reuse = self.parts.limits.reuse;
        self.parts.processes.add_thread(reuse, process)?;
        Ok(())
    }

    /// Adds the next process number, of a session, with the next thread number and with the inheritable entries of a
    /// parent at the same values.
    pub fn add_child(&mut self, parent: u32, session: u32) -> Result<(), AllocError>
        requires processes { next_process self.old.state ≤ self.old.state.limits.processes }
        requires threads { next_thread self.old.state ≤ self.old.state.limits.threads }
        requires parent { parent < length self.old.state.tables }
        ensures ok { OnOk result (self.new ≡ record self.old {
          state = settled
              (with_child self.old.state parent session);
        }) }
        ensures err { OnErr result (self.new ≡ self.old) }
    {
        self.parts.objects.kept();
        let reuse = self.parts.limits.reuse;
        let child = self
            .parts
            .processes
            .add_process(reuse, session, &mut self.parts.tables, Some(parent))?;
        self.parts
            .objects
            .handles_came(self.parts.tables.entries(child));
        self.parts.objects.kept();
        Ok(())
    }
}
