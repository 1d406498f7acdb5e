//! The beginning of a program: what it goes by, or what it tells where it can't read that.
ghost use Rattle.std.specs.Prelude.{◌≡◌, ◌≤◌, drop, map, string_bytes, All, IfErr, IfSome, IsUtf8, OnOk};
ghost use Rattle.start_values.specs.Start.{ForStart, NamesFolders, etc_of, lists_of};
ghost use Rattle.start_values.specs.Telling.{IsRefusalWritten, WritesRefusal};

use crate::{Environment, Refused, Start, read_start};
use acq_outside::Sink;
use std::alloc::Global;

/// Reads what a program goes by, or tells why it can't and answers the exit status: that of the refusal, or 105 where the
/// output fails.
pub fn begin_program<E: Environment, S: Sink>(
    alloc: Global,
    environment: &E,
    out: &mut S,
) -> Result<Start, u8>
    ensures text { IfSome (E.known environment.now) (λ known. OnOk result (All IsUtf8 known.words)) }
    ensures folders { IfSome (E.known environment.now) (λ known. OnOk result (NamesFolders known)) }
    ensures words { ForStart (E.known environment.now) result (λ known start. map string_bytes start.words.items ≡ drop 1 known.words) }
    ensures etc { ForStart (E.known environment.now) result (λ known start. string_bytes start.etc ≡ etc_of known) }
    ensures lists { ForStart (E.known environment.now) result (λ known start. string_bytes start.lists ≡ lists_of known) }
    ensures untouched { OnOk result (out.new ≡ out.old) }
    ensures count { S.faults out.old ≤ S.faults out.new }
    ensures told { IfErr result (IsRefusalWritten (E.known environment.now) (S.faults out.old) (S.faults out.new) (S.written out.old) (S.written out.new)) }
{
    match read_start(alloc, environment) {
        Ok(start) => Ok(start),
        Err(refused) => Err(write_refusal(refused, out)),
    }
}

/// Tells why nothing was carried out, and answers the exit status: that of the refusal, or 105 where the output fails.
pub fn write_refusal<S: Sink>(refused: Refused, out: &mut S) -> u8
    ensures count { S.faults out.old ≤ S.faults out.new }
    ensures told { WritesRefusal (S.faults out.old) (S.faults out.new) (S.written out.old) (S.written out.new) refused result }
{
    match out.write(refused.line().as_bytes()) {
        Ok(()) => refused.status(),
        Err(_) => 105,
    }
}
