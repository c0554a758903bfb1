//! The payloads of frames.

ghost use Rattle.std.specs.Prelude.{◌≡◌, ◌≤◌, ◌<◌, ◌+◌, ◌^◌, List, Ok, IfErr, OnOk, length, take};
ghost use Rattle.std.specs.Prelude.{drop};
ghost use Rattle.std.specs.Ordering.{is_gt};
ghost use Rattle.c5_rows.specs.Order.{row_name_cmp};
ghost use Rattle.c5_rows.specs.declared.tables.TableDef.{TableDef};
ghost use Rattle.c5_rows.specs.declared.writes.Write.{Write};
ghost use Rattle.c5_rows.specs.declared.writes.Txn.{Txn};
ghost use Rattle.c5_definitions.specs.Items.{is_above, last_of};
ghost use Rattle.c5_frames.specs.Payloads.{shows_name, marked, ended, shown_at, name_of};
ghost use Rattle.c5_frames.specs.Payloads.{numbers_of};
ghost use Rattle.c5_frames.specs.Index.{found_in, payload_at, IsIndex};
ghost use Rattle.c5_frames.specs.DecoderStates.{tables_of, decoded_state, IsReady, Faults};

use crate::decoder_state::DecoderState;
use crate::header::tables_in;
use crate::index::{Index, Place};
use crate::payload::{Checked, Mark, NameRef, check_payload};
use crate::refs::name_in;
use crate::stage::Stage;
use c5_definitions::LogKind;

/// The payload at a place.
pub fn payload_in<'a>(bytes: &'a [u8], place: &Place) -> &'a [u8]
    requires { place.now.at + place.now.size ≤ length bytes.now }
    ensures { result.now ≡ payload_at bytes.now place.now }
{
    let from = &bytes[place.at as usize..];
    &from[..place.size as usize]
}

fn is_above(name: NameRef, other: NameRef) -> bool
    ensures { result ≡ is_gt (row_name_cmp (name_of name.entry) (name_of other.entry)) }
{
    name.table
        .cmp(&other.table)
        .then_with(|| name.key.cmp(other.key))
        .is_gt()
}

// Whether the name is above that of the last write, if there is one since the last commit mark.
fn is_above_last(bytes: &[u8], index: &Index, name: NameRef) -> bool
    requires index { (tables : List TableDef) × (txns : List Txn) × (writes : List Write)
        × IsIndex bytes.now tables (found_in index.now) txns writes }
    requires few { length index.now.places.items < 2 ^ 32 }
    ensures { (tables : List TableDef) (txns : List Txn) (writes : List Write)
        → IsIndex bytes.now tables (found_in index.now) txns writes
        → result ≡ is_above (name_of name.entry) (last_of writes) }
{
    if index.open() == 0 {
        return true;
    }
    let place = index.places[index.places.len() - 1];
    is_above(name, name_in(payload_in(bytes, &place)))
}

fn take_write(bytes: &[u8], p: &mut DecoderState, size: u32, name: NameRef) -> Result<(), LogKind>
    requires ready { IsReady bytes.now p.old }
    requires stage { p.old.stage ≡ Stage.Payload size }
    requires whole { p.old.at + size ≤ length bytes.now }
    requires shown { shown_at (tables_of p.old.schema) (take size (drop p.old.at bytes.now))
        ≡ Ok (shows_name (name_of name)) }
    ensures ready { OnOk result (IsReady bytes.now p.new) }
    ensures further { OnOk result (p.old.at < p.new.at) }
    ensures fault { IfErr result (λ kind. Faults bytes.now (decoded_state p.old) kind) }
{
    if !is_above_last(bytes, &p.index, name) {
        return Err(LogKind::Order);
    }
    p.index.add_place(Place { at: p.at, size });
    p.at += size;
    p.stage = Stage::FrameLength;
    Ok(())
}

fn take_mark(bytes: &[u8], p: &mut DecoderState, size: u32, mark: Mark) -> Result<(), LogKind>
    requires ready { IsReady bytes.now p.old }
    requires stage { p.old.stage ≡ Stage.Payload size }
    requires whole { p.old.at + size ≤ length bytes.now }
    requires shown { shown_at (tables_of p.old.schema) (take size (drop p.old.at bytes.now))
        ≡ Ok (marked (numbers_of mark)) }
    ensures ready { OnOk result (IsReady bytes.now p.new) }
    ensures further { OnOk result (p.old.at < p.new.at) }
    ensures fault { IfErr result (λ kind. Faults bytes.now (decoded_state p.old) kind) }
{
    if mark.stamp <= p.index.stamp {
        return Err(LogKind::Stamp);
    }
    if mark.count != p.index.open() {
        return Err(LogKind::Count);
    }
    p.index.add_txn(mark);
    p.at += size;
    p.stage = Stage::FrameLength;
    Ok(())
}

fn take_end(bytes: &[u8], p: &mut DecoderState, size: u32, count: u32) -> Result<(), LogKind>
    requires ready { IsReady bytes.now p.old }
    requires stage { p.old.stage ≡ Stage.Payload size }
    requires whole { p.old.at + size ≤ length bytes.now }
    requires shown { shown_at (tables_of p.old.schema) (take size (drop p.old.at bytes.now))
        ≡ Ok (ended count) }
    ensures ready { OnOk result (IsReady bytes.now p.new) }
    ensures further { OnOk result (p.old.at < p.new.at) }
    ensures fault { IfErr result (λ kind. Faults bytes.now (decoded_state p.old) kind) }
{
    if p.index.open() != 0 {
        return Err(LogKind::End);
    }
    if p.index.txns.len() != count as usize {
        return Err(LogKind::End);
    }
    p.at += size;
    p.stage = Stage::NothingMore;
    Ok(())
}

/// Takes the payload that comes next.
pub fn take_payload(bytes: &[u8], p: &mut DecoderState, size: u32) -> Result<(), LogKind>
    requires ready { IsReady bytes.now p.old }
    requires stage { p.old.stage ≡ Stage.Payload size }
    requires whole { p.old.at + size ≤ length bytes.now }
    ensures ready { OnOk result (IsReady bytes.now p.new) }
    ensures further { OnOk result (p.old.at < p.new.at) }
    ensures fault { IfErr result (λ kind. Faults bytes.now (decoded_state p.old) kind) }
{
    let payload = payload_in(bytes, &Place { at: p.at, size });
    match check_payload(tables_in(&p.schema), payload) {
        Ok(Checked::Write(name)) => take_write(bytes, p, size, name),
        Ok(Checked::Mark(mark)) => take_mark(bytes, p, size, mark),
        Ok(Checked::End(count)) => take_end(bytes, p, size, count),
        Err(kind) => Err(kind),
    }
}
