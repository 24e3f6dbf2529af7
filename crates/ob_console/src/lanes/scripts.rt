ghost use Rattle.std.specs.Prelude.{◌≡◌, ◌+◌, ◌<◌, ◌∷◌, ◌++◌, [], IfOk, OnErr, OnOk, length, vec_len};
ghost use Rattle.ob_console.specs.LaneScripts.{is_good, opening_scripts, with_act, with_line, without_prologue};

use crate::lanes::calling::act_of;
use crate::lanes::line::{LaneLine, is_marked, line_of};
use ob_script::Handles;
use ob_shared::Act;
use std::alloc::{AllocError, Global};
use std::marker::Model;

/// What a member is to do. A contract sees the list of its acts.
#[derive(Drop)]
pub struct LaneScript {
    acts: Vec<Act>,
}

impl Model for LaneScript {
    ghost use Rattle.std.specs.Prelude.{List};
    ghost use Rattle.ob_shared.specs.declared.act.Act.{Act};

    ghost Value = { List Act };

    ghost view = { λ script. script.acts.items };
}

impl LaneScript {
    fn new(alloc: Global) -> LaneScript
        ensures { result ≡ [] }
    {
        LaneScript {
            acts: Vec::new(alloc),
        }
    }

    fn push(&mut self, act: Act) -> Result<(), AllocError>
        ensures ok { OnOk result (self.new ≡ self.old ++ act ∷ []) }
        ensures memory { OnErr result (self.new ≡ self.old) }
    {
        self.acts.push(act)?;
        Ok(())
    }

    /// Its acts, in their order.
    pub fn into_acts(self) -> Vec<Act>
        ensures { result.items ≡ self }
    {
        self.acts
    }
}

/// What the members of the prologue and of the lanes are to do, as far as lines have come. A contract sees the scripts
/// by the number of their lane, and whether the prologue goes on.
#[derive(Drop)]
pub struct LaneScripts {
    more: bool,
    scripts: Vec<LaneScript>,
    lanes: u32,
    is_prologue: bool,
    handles: Handles,
    alloc: Global,
}

impl Model for LaneScripts {
    ghost use Rattle.std.specs.Prelude.{◌≡◌, ◌+◌, length, vec_len};
    ghost use Rattle.ob_console.specs.LaneScripts.{ScriptsState};

    ghost Value = { ScriptsState };

    ghost view = { λ scripts. record {
      more = scripts.more;
      scripts = scripts.scripts.items;
      lanes = scripts.lanes;
      is_prologue = scripts.is_prologue;
    } };

    ghost invariant = { λ scripts. vec_len scripts.scripts ≡ scripts.lanes + 1 };
}

impl LaneScripts {
    /// Empty scripts, for the prologue and so many lanes beside it. With `more` they may have lines that the option
    /// `--more` adds.
    pub fn new(alloc: Global, more: bool, lanes: u32) -> Result<LaneScripts, AllocError>
        ensures { IfOk result (λ scripts. scripts ≡ opening_scripts more lanes) }
    {
        let mut scripts = Vec::new(alloc);
        scripts.push(LaneScript::new(alloc))?;
        for number in 0..lanes {
            let _number = number;
            scripts.push(LaneScript::new(alloc))?;
        }
        Ok(LaneScripts {
            more,
            scripts,
            lanes,
            is_prologue: true,
            handles: Handles::new(),
            alloc,
        })
    }

    /// Takes a line, without its line feed, and says whether it is good; one that is bad may end the prologue all the
    /// same. Where memory is wanting nothing has changed.
    pub fn take(&mut self, line: &[u8]) -> Result<bool, AllocError>
        ensures good { IfOk result (λ good. good ≡ is_good self.old line.now) }
        ensures taken { OnOk result (self.new ≡ with_line self.old line.now) }
        ensures memory { OnErr result (self.new ≡ self.old) }
    {
        let is_good = match line_of(
            self.more,
            self.lanes,
            self.is_prologue,
            line,
            &mut self.handles,
        ) {
            LaneLine::Nothing => true,
            LaneLine::Bad => false,
            LaneLine::Acts(number, request) => {
                let act = act_of(self.alloc, request, self.handles.as_slice())?;
                add(self.scripts.as_mut_slice(), number as usize, act)?;
                true
            }
        };
        if is_marked(line) {
            self.is_prologue = false;
        }
        Ok(is_good)
    }

    /// A line came that begins with an @ and is too long to be read.
    pub fn end_prologue(&mut self)
        ensures { self.new ≡ without_prologue self.old }
    {
        self.is_prologue = false;
    }

    /// The scripts by the number of their lane, of which the prologue's is 0.
    pub fn into_scripts(self) -> Vec<LaneScript>
        ensures scripts { result.items ≡ self.scripts }
        ensures len { vec_len result ≡ self.lanes + 1 }
    {
        self.scripts
    }
}

/// Puts an act behind the others of its script.
fn add(scripts: &mut [LaneScript], number: usize, act: Act) -> Result<(), AllocError>
    requires { number < length scripts.old }
    ensures ok { OnOk result (scripts.new ≡ with_act number act scripts.old) }
    ensures memory { OnErr result (scripts.new ≡ scripts.old) }
{
    scripts[number].push(act)
}
