// The rows of a file, streamed to an output.
ghost use Rattle.std.specs.Prelude.{◌≡◌, ◌≢◌, ◌+◌, ◌*◌, ◌<◌, ◌≤◌, ◌^◌, ℕ, List, [], length, drop, true, false, Err, IsTrue, IfOk, OnOk};
ghost use Rattle.std.specs.FinMap.{insert};
ghost use Rattle.mr_values.specs.Files.{Files};
ghost use Rattle.command_files.specs.Ends.{EndsWith, IsNoFile, IsThisFile, call_in_rows};
ghost use Rattle.command_files.specs.RowFiles.{RowsEnd};
ghost use Rattle.command_files.specs.RowSteps.{OpensOut, PutsOut, HandsOn, TakesPiece, TakesRows, EndsOnce, EndsRows, none_left};

use crate::RowsFault;
use mr_values::{Host, HostCall, OutFail};
use row_stream::{RowStream, StreamFault};
use std::alloc::Global;

/// The most bytes that are read at once.
const PIECE: usize = 65_536;

/// Gives the rows of the input to a stream, piece by piece, and writes what it gives to the output, which it makes or empties. At a
/// refused line the output holds what is given for the rows before it. Fails with that line, with `HostFault` where a host call fails,
/// and for want of memory. What it holds doesn't grow with the file: one piece of it, and one output of a call.
pub fn stream_rows<H: Host, S: RowStream>(
    alloc: Global,
    host: &mut H,
    input: &str,
    output: &str,
    stream: &mut S,
) -> Result<(), RowsFault>
    requires { input.now ≢ output.now }
    ensures cause { EndsWith (IsThisFile input.now) (call_in_rows result) (H.state host.old) (H.state host.new) }
    ensures told { IsTrue (H.state host.old).tells → RowsEnd (S.gives stream.old) input.now output.now result (H.state host.old) (H.state host.new) }
{
    stream.gives_some();
    if host.open_input(input).is_err() {
        return Err(RowsFault::HostFault {
            call: HostCall::OpenInput,
        });
    }
    open_out(host, output)?;
    let mut out = Vec::new(alloc);
    take_rows(alloc, host, stream, &mut out)?;
    end_rows(alloc, host, stream, &mut out)
}

// Makes or empties the output.
fn open_out<H: Host>(host: &mut H, name: &str) -> Result<(), RowsFault>
    ensures cause { EndsWith IsNoFile (call_in_rows result) (H.state host.old) (H.state host.new) }
    ensures input { (H.state host.new).has_input ≡ (H.state host.old).has_input }
    ensures output { OnOk result ((H.state host.new).has_output ≡ true) }
    ensures told { IsTrue (H.state host.old).tells → OpensOut name.now result (H.state host.old) (H.state host.new) }
{
    match host.open_output(name) {
        Ok(()) => Ok(()),
        Err(OutFail::Memory) => Err(RowsFault::Memory),
        Err(OutFail::Failed) => Err(RowsFault::HostFault {
            call: HostCall::OpenOutput,
        }),
    }
}

// Gives a stream what is left of the input, piece by piece.
fn take_rows<H: Host, S: RowStream>(
    alloc: Global,
    host: &mut H,
    stream: &mut S,
    out: &mut Vec<u8>,
) -> Result<(), RowsFault>
    requires input { (H.state host.old).has_input ≡ true }
    requires output { (H.state host.old).has_output ≡ true }
    requires room { out.old.items ≡ [] }
    ensures cause { EndsWith IsNoFile (call_in_rows result) (H.state host.old) (H.state host.new) }
    ensures output { OnOk result ((H.state host.new).has_output ≡ true) }
    ensures room { OnOk result (out.new.items ≡ []) }
    ensures told { (base : Files) (sent : List ℕ) → IsTrue (H.state host.old).tells → (H.state host.old).input ≢ (H.state host.old).output → (H.state host.old).files ≡ insert base (H.state host.old).output sent
        → TakesRows (S.gives stream.old) (S.gives stream.new) base sent result (H.state host.old) (H.state host.new) }
{
    let mut room = [0u8; PIECE];
    'pieces: loop {
        stream.gives_some();
        let Ok(count) = host.next(&mut room) else {
            return Err(RowsFault::HostFault {
                call: HostCall::Next,
            });
        };
        if count == 0 {
            return Ok(());
        }
        take_piece(alloc, host, &room[..count], stream, out)?;
    }
}

// Gives a stream a piece of the input.
fn take_piece<H: Host, S: RowStream>(
    alloc: Global,
    host: &mut H,
    piece: &[u8],
    stream: &mut S,
    out: &mut Vec<u8>,
) -> Result<(), RowsFault>
    requires output { (H.state host.old).has_output ≡ true }
    requires room { out.old.items ≡ [] }
    ensures cause { EndsWith IsNoFile (call_in_rows result) (H.state host.old) (H.state host.new) }
    ensures input { (H.state host.new).has_input ≡ (H.state host.old).has_input }
    ensures output { OnOk result ((H.state host.new).has_output ≡ true) }
    ensures room { OnOk result (out.new.items ≡ []) }
    ensures bytes { OnOk result (S.most stream.old + length piece.now ≤ S.most stream.new) }
    ensures bound { OnOk result (0 < length piece.now → S.most stream.new ≤ 2 ^ 45) }
    ensures told { IsTrue (H.state host.old).tells → TakesPiece none_left (S.gives stream.old) (S.gives stream.new) piece.now result (H.state host.old) (H.state host.new) }
{
    let mut taken = 0;
    'turns: while taken < piece.len() {
        let (_, left) = piece.split_at(taken);
        taken += take_turn(alloc, host, left, stream, out)?;
    }
    Ok(())
}

// Gives a stream bytes of which it may leave some, and puts what it gives for them.
fn take_turn<H: Host, S: RowStream>(
    alloc: Global,
    host: &mut H,
    piece: &[u8],
    stream: &mut S,
    out: &mut Vec<u8>,
) -> Result<usize, RowsFault>
    requires output { (H.state host.old).has_output ≡ true }
    requires room { out.old.items ≡ [] }
    ensures cause { EndsWith IsNoFile (call_in_rows result) (H.state host.old) (H.state host.new) }
    ensures input { (H.state host.new).has_input ≡ (H.state host.old).has_input }
    ensures output { OnOk result ((H.state host.new).has_output ≡ true) }
    ensures room { OnOk result (out.new.items ≡ []) }
    ensures within { IfOk result (λ taken. taken ≤ length piece.now) }
    ensures some { 0 < length piece.now → IfOk result (λ taken. S.due stream.new < S.due stream.old + taken * 2 ^ 17) }
    ensures same { IfOk result (λ taken. taken ≡ 0 → S.most stream.new ≡ S.most stream.old) }
    ensures bytes { IfOk result (λ taken. S.most stream.old + taken ≤ S.most stream.new) }
    ensures bound { IfOk result (λ taken. 0 < taken → S.most stream.new ≤ 2 ^ 45) }
    ensures told { IsTrue (H.state host.old).tells → TakesPiece (λ taken. drop taken piece.now) (S.gives stream.old) (S.gives stream.new) piece.now result (H.state host.old) (H.state host.new) }
{
    stream.gives_some();
    let answer = stream.advance(alloc, piece, out);
    stream.gives_some();
    hand_on(host, answer, out)
}

// Puts what a stream gives at the end of the file.
fn end_rows<H: Host, S: RowStream>(
    alloc: Global,
    host: &mut H,
    stream: &mut S,
    out: &mut Vec<u8>,
) -> Result<(), RowsFault>
    requires output { (H.state host.old).has_output ≡ true }
    requires room { out.old.items ≡ [] }
    ensures cause { EndsWith IsNoFile (call_in_rows result) (H.state host.old) (H.state host.new) }
    ensures told { IsTrue (H.state host.old).tells → EndsRows (S.gives stream.old) result (H.state host.old) (H.state host.new) }
{
    'turns: loop {
        if end_turn(alloc, host, stream, out)? {
            return Ok(());
        }
    }
}

fn end_turn<H: Host, S: RowStream>(
    alloc: Global,
    host: &mut H,
    stream: &mut S,
    out: &mut Vec<u8>,
) -> Result<bool, RowsFault>
    requires output { (H.state host.old).has_output ≡ true }
    requires room { out.old.items ≡ [] }
    ensures cause { EndsWith IsNoFile (call_in_rows result) (H.state host.old) (H.state host.new) }
    ensures output { OnOk result ((H.state host.new).has_output ≡ true) }
    ensures room { OnOk result (out.new.items ≡ []) }
    ensures less { IfOk result (λ done. done ≡ false → S.left stream.new < S.left stream.old) }
    ensures told { IsTrue (H.state host.old).tells → EndsOnce (S.gives stream.old) (S.gives stream.new) result (H.state host.old) (H.state host.new) }
{
    stream.gives_some();
    let answer = stream.finish(alloc, out);
    stream.gives_some();
    hand_on(host, answer, out)
}

// Puts what a call of a stream has appended, unless memory ran out, and answers as the call did.
fn hand_on<H: Host, A: Copy>(
    host: &mut H,
    answer: Result<A, StreamFault>,
    out: &mut Vec<u8>,
) -> Result<A, RowsFault>
    requires output { (H.state host.old).has_output ≡ true }
    ensures cause { EndsWith IsNoFile (call_in_rows result) (H.state host.old) (H.state host.new) }
    ensures input { (H.state host.new).has_input ≡ (H.state host.old).has_input }
    ensures output { OnOk result ((H.state host.new).has_output ≡ true) }
    ensures room { OnOk result (out.new.items ≡ []) }
    ensures ok { IfOk result (λ x. answer ≡ Ok x) }
    ensures told { IsTrue (H.state host.old).tells → HandsOn answer out.old.items result (H.state host.old) (H.state host.new) }
{
    match answer {
        Ok(value) => {
            put_out(host, out)?;
            Ok(value)
        }
        Err(StreamFault::Line(fault)) => {
            put_out(host, out)?;
            Err(RowsFault::Line(fault))
        }
        Err(StreamFault::Memory) => Err(RowsFault::Memory),
    }
}

// Puts an output, unless it is empty, and empties it.
fn put_out<H: Host>(host: &mut H, out: &mut Vec<u8>) -> Result<(), RowsFault>
    requires output { (H.state host.old).has_output ≡ true }
    ensures cause { EndsWith IsNoFile (call_in_rows result) (H.state host.old) (H.state host.new) }
    ensures input { (H.state host.new).has_input ≡ (H.state host.old).has_input }
    ensures output { OnOk result ((H.state host.new).has_output ≡ true) }
    ensures room { OnOk result (out.new.items ≡ []) }
    ensures told { IsTrue (H.state host.old).tells → PutsOut out.old.items result (H.state host.old) (H.state host.new) }
{
    if out.is_empty() {
        return Ok(());
    }
    match host.put(out) {
        Ok(()) => {
            out.clear();
            Ok(())
        }
        Err(OutFail::Memory) => Err(RowsFault::Memory),
        Err(OutFail::Failed) => Err(RowsFault::HostFault {
            call: HostCall::Put,
        }),
    }
}
