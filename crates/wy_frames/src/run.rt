//! Taking all frames that bytes have whole.

ghost use Rattle.std.specs.Prelude.{◌≡◌, ◌++◌, ℕ, List, IfOk, IfErr, OnOk, OnErr, Err};
ghost use Rattle.std.specs.Option.{option_to_list};
ghost use Rattle.wy_frames.specs.Progress.{Progress};
ghost use Rattle.wy_frames.specs.Holds.{Holds};
ghost use Rattle.wy_frames.specs.Scan.{Leaves, Refused, Rests, is_passed};

use crate::error::TraceError;
use crate::past::Past;
use crate::split::split;
use crate::stage::{ReadEvent, Stage};
use std::alloc::Global;
use wy_payload::fault::DamageRule;
use wy_payload::ranges::Ranges;

fn keep(placed: &mut Vec<ReadEvent>, next: Option<ReadEvent>) -> Result<(), TraceError>
    ensures ok { OnOk result (placed.new.items ≡ placed.old.items ++ option_to_list next) }
    ensures err { OnErr result (result ≡ Err TraceError.NoMemory) }
{
    if let Some(next) = next {
        placed.push(next)?;
    }
    Ok(())
}

impl Past {
    // Bytes are left behind the seal.
    fn is_passed(&self, rest: &[u8]) -> bool
        ensures { result ≡ is_passed self.now.stage rest.now }
    {
        match self.stage {
            Stage::Sealed(_, _) => !rest.is_empty(),
            _ => false,
        }
    }

    /// Takes the frames that bytes have whole, and hands out the bytes behind them.
    pub fn take_all<'a>(
        &mut self,
        alloc: Global,
        ranges: &Ranges,
        steps: u32,
        bytes: &'a [u8],
        placed: &mut Vec<ReadEvent>,
    ) -> Result<&'a [u8], TraceError>
        ensures ok { IfOk result (λ rest. (from s : Progress) (fed : List ℕ) → Holds self.old s
            → Leaves ranges.now steps from fed s bytes.now
            → Rests ranges.now steps from fed s placed.old.items placed.new.items
            self.new rest.now) }
        ensures err { IfErr result (λ e. (from s : Progress) (fed : List ℕ) → Holds self.old s
            → Leaves ranges.now steps from fed s bytes.now → Refused ranges.now steps from fed e) }
    {
        let mut rest = bytes;
        'frames: while let Some(piece) = split(rest) {
            match self.take(alloc, ranges, steps, piece) {
                Ok(next) => keep(placed, next)?,
                Err(error) => return Err(error),
            }
            rest = piece.rest;
        }
        if self.is_passed(rest) {
            return Err(TraceError::Damaged {
                byte: self.at,
                rule: DamageRule::After,
            });
        }
        Ok(rest)
    }
}
