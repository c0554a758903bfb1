//! The items of a log, one after the other.

ghost use Rattle.std.specs.Prelude.{◌≡◌, ◌≤◌, ◌<◌, ◌+◌, Err, IfErr, OnOk, length};
ghost use Rattle.c5_definitions.specs.Items.{size_of, after_bytes, at_start};
ghost use Rattle.c5_frames.specs.Stages.{item_of};
ghost use Rattle.c5_frames.specs.DecoderStates.{decoded_state, IsReady, IsPlain, HasWhole, Faults};

use crate::decoder_state::DecoderState;
use crate::frames::{payload_in, take_payload};
use crate::header::{after_frame_length, after_plain};
use crate::index::Place;
use crate::stage::{Stage, begin_of_item, size_of_item};
use c5_definitions::{LogFault, LogKind};

fn take_plain(bytes: &[u8], p: &mut DecoderState) -> Result<(), LogKind>
    requires ready { IsReady bytes.now p.old }
    requires plain { IsPlain (item_of p.old.stage) }
    requires whole { HasWhole bytes.now (decoded_state p.old) }
    ensures ready { OnOk result (IsReady bytes.now p.new) }
    ensures further { OnOk result (p.old.at < p.new.at) }
    ensures fault { IfErr result (λ kind. Faults bytes.now (decoded_state p.old) kind) }
{
    let size = size_of_item(&p.stage);
    let item = payload_in(bytes, &Place { at: p.at, size });
    match after_plain(&mut p.schema, p.stage, item) {
        Ok(next) => {
            p.stage = next;
            p.at += size;
            Ok(())
        }
        Err(kind) => Err(kind),
    }
}

// Takes the length of a frame.
fn take_length(bytes: &[u8], p: &mut DecoderState) -> Result<(), LogKind>
    requires ready { IsReady bytes.now p.old }
    requires stage { p.old.stage ≡ Stage.FrameLength }
    requires whole { p.old.at + 4 ≤ length bytes.now }
    ensures ready { OnOk result (IsReady bytes.now p.new) }
    ensures further { OnOk result (p.old.at < p.new.at) }
    ensures fault { IfErr result (λ kind. Faults bytes.now (decoded_state p.old) kind) }
{
    let item = payload_in(bytes, &Place { at: p.at, size: 4 });
    match after_frame_length(item) {
        Ok(size) => {
            p.stage = Stage::Payload { size };
            p.at += 4;
            Ok(())
        }
        Err(kind) => Err(kind),
    }
}

// Takes the item that comes next.
fn take_item(bytes: &[u8], p: &mut DecoderState) -> Result<(), LogKind>
    requires ready { IsReady bytes.now p.old }
    requires whole { HasWhole bytes.now (decoded_state p.old) }
    ensures ready { OnOk result (IsReady bytes.now p.new) }
    ensures further { OnOk result (p.old.at < p.new.at) }
    ensures fault { IfErr result (λ kind. Faults bytes.now (decoded_state p.old) kind) }
{
    match p.stage {
        Stage::Payload { size } => take_payload(bytes, p, size),
        Stage::FrameLength => take_length(bytes, p),
        _ => take_plain(bytes, p),
    }
}

fn step(bytes: &[u8], p: &mut DecoderState) -> Result<(), LogFault>
    requires ready { IsReady bytes.now p.old }
    requires whole { HasWhole bytes.now (decoded_state p.old) }
    ensures ready { OnOk result (IsReady bytes.now p.new) }
    ensures further { OnOk result (p.old.at < p.new.at) }
    ensures fault { IfErr result (λ fault. after_bytes at_start bytes.now ≡ Err fault) }
{
    let offset = begin_of_item(&p.stage, p.at);
    match take_item(bytes, p) {
        Ok(()) => Ok(()),
        Err(kind) => Err(LogFault { offset, kind }),
    }
}

/// Takes the items that are complete.
pub fn take_items(bytes: &[u8], p: &mut DecoderState) -> Result<(), LogFault>
    requires { IsReady bytes.now p.old }
    ensures ready { OnOk result (IsReady bytes.now p.new) }
    ensures part { OnOk result (length bytes.now < p.new.at + size_of (item_of p.new.stage)) }
    ensures fault { IfErr result (λ fault. after_bytes at_start bytes.now ≡ Err fault) }
{
    while p.at as usize + size_of_item(&p.stage) as usize <= bytes.len() {
        step(bytes, p)?;
    }
    Ok(())
}
