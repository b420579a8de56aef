//! What the lines of a patch's file make.
ghost use Rattle.std.specs.Prelude.{◌≡◌, [], Ok, Err, IfOk, IfErr};
ghost use Rattle.std.specs.Option.{option_map_or};
ghost use Rattle.elf_syms.specs.Names.{found_for};
ghost use Rattle.patch_build.specs.Builds.{IsFault};
ghost use Rattle.patch_build.specs.Jumps.{one_of, jump_from, line_refusal, line_jump, jumps_behind};

use crate::constants::JUMP_SIZE;
use crate::jumps::{Jumps, meets_other};
use crate::{Area, BuildFault, LineRule};
use elf_syms::{Found, Names};
use patch_file::Replace;
use std::alloc::Global;
use std::collections::BTreeSet;
use std::marker::Model;
use wf_outside::Jump;

// The one address, and the size, of what is found of a name.
fn one_of(found: Found) -> Result<(u64, u64), LineRule>
    ensures { result ≡ one_of found }
{
    match found {
        Found::None => Err(LineRule::NoFunction),
        Found::Several => Err(LineRule::Several),
        Found::One { addr, size } => Ok((addr, size)),
    }
}

// What lines are looked up in: the functions of the object, the names of the image and of the
// patches before, the area, and the addresses of its jumps.
#[derive(Drop)]
pub struct Lookup<'a> {
    pub functions: &'a Names,
    pub names: &'a Names,
    pub area: &'a Area,
    pub earlier: BTreeSet<u64>,
}

impl<'a> Model for Lookup<'a> {
    ghost use Rattle.patch_build.specs.Areas.{LookupValue};
    ghost use Rattle.patch_build.specs.Jumps.{HasSame};

    ghost Value = { LookupValue };

    ghost view = { λ l. record {
      functions = l.functions.now;
      names = l.names.now;
      area = l.area.now;
    } };

    ghost invariant = { λ l. HasSame l.earlier.keys l.area.now.jumps };
}

impl Lookup<'_> {
    // The jump over a function of this size at one address, behind these jumps, to another address.
    fn jump_over(&self, jumps: &Jumps, size: u64, from: u64, to: u64) -> Result<Jump, LineRule>
        ensures { result
            ≡ option_map_or Err (line_refusal self.now.area jumps.now size from to)
            (Ok (jump_from from to)) }
    {
        if size < JUMP_SIZE {
            return Err(LineRule::TooSmall);
        }
        if !self.area.has_jump(from) || from % 4 != 0 || to % 4 != 0 {
            return Err(LineRule::NoFunction);
        }
        let Some(bytes) = rv_encode::jump(from, to) else {
            return Err(LineRule::JumpReach);
        };
        if jumps.meet(from) || meets_other(&self.earlier, from) {
            return Err(LineRule::JumpsMeet);
        }
        Ok(Jump { at: from, bytes })
    }

    // The jump that a line makes behind these.
    fn line_jump(&self, jumps: &Jumps, replace: &Replace) -> Result<Jump, LineRule>
        ensures { result
            ≡ line_jump (found_for self.now.functions) self.now.names self.now.area jumps.now
            replace.now }
    {
        let (to, _) = one_of(self.functions.find(&[], replace.new.bytes()))?;
        let (from, size) = one_of(self.names.find(&[], replace.old.bytes()))?;
        self.jump_over(jumps, size, from, to)
    }

    /// The jumps that lines make, or the first line that makes none.
    pub fn jumps_of(&self, alloc: Global, replaces: &[Replace]) -> Result<Vec<Jump>, BuildFault>
        ensures jumps { IfOk result
            (λ jumps. jumps_behind (found_for self.now.functions) self.now.names self.now.area []
            replaces.now ≡ Ok jumps.items) }
        ensures fault { IfErr result
            (IsFault (jumps_behind (found_for self.now.functions) self.now.names self.now.area []
            replaces.now)) }
    {
        let mut jumps = Jumps::new(alloc);
        for replace in replaces {
            match self.line_jump(&jumps, replace) {
                Ok(jump) => jumps.push(jump)?,
                Err(rule) => {
                    return Err(BuildFault::Line {
                        line: replace.line,
                        rule,
                    });
                }
            }
        }
        Ok(jumps.into_vec())
    }
}
