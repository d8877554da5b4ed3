ghost use Rattle.std.specs.Prelude.{◌≡◌, ◌≤ℤ◌, ℕ, OnOk, OnErr};
ghost use Rattle.atom_writer.specs.Pieced.{text_of};
ghost use Rattle.member_rules.specs.Coding.{operations};
ghost use Rattle.member_rules.specs.FieldLists.{ReadsAll, ReadsWhole};
ghost use Rattle.member_rules.specs.Fields.{Reads};
ghost use Rattle.member_rules.specs.Operation.{IsOperation};
ghost use Rattle.member_rules.specs.Removal.{IsRemoval};
ghost use Rattle.member_rules.specs.RemovalFields.{removals, stamp_from};
ghost use Rattle.member_rules.specs.Setting.{IsSetting};
ghost use Rattle.member_rules.specs.SettingFields.{sets, settings};

use crate::codec::bytes::push_number;
use crate::codec::coded::Coded;
use crate::codec::entry::{push_entry, read_entry, read_number};
use crate::codec::fault::FieldFault;
use crate::codec::head::{read_title, read_window};
use crate::codec::unread::Unread;
use crate::operation::{Op, Removal};
use crate::setting::Setting;
use atom_values::{NoMemory, Stamp};
use atom_writer::Out;
use deleted_entries::Tombstone;
use std::alloc::Global;

/// The first byte of each kind of operation.
const ADD: u8 = 1;

const CHANGE: u8 = 2;

const REMOVE: u8 = 3;

const SET: u8 = 4;

/// The byte that tells which setting an operation changes.
const TITLE: u8 = 1;

const WINDOW: u8 = 2;

/// Adds the fields of the operation.
pub(crate) fn push_operation<W: Out>(out: &mut W, operation: &Op) -> Result<(), NoMemory>
    ensures added { OnOk result (W.adds out.old out.new (text_of operations operation.now)) }
    ensures failed { OnErr result W.can_fail }
    ensures rules { OnOk result (IsOperation operation.now) }
{
    match operation {
        Op::Add(entry) => {
            out.push(&[ADD])?;
            push_entry(out, entry)?;
            Ok(())
        }
        Op::Change(entry) => {
            out.push(&[CHANGE])?;
            push_entry(out, entry)?;
            Ok(())
        }
        Op::Remove(removal) => {
            out.push(&[REMOVE])?;
            push_removal(out, removal)?;
            Ok(())
        }
        Op::Set { setting, moment } => {
            out.push(&[SET])?;
            moment.push(out)?;
            push_setting(out, setting)?;
            Ok(())
        }
    }
}

/// Adds the fields of the removal.
fn push_removal<W: Out>(out: &mut W, removal: &Removal) -> Result<(), NoMemory>
    ensures added { OnOk result (W.adds out.old out.new (text_of removals removal.now)) }
    ensures failed { OnErr result W.can_fail }
    ensures rules { OnOk result (IsRemoval removal.now) }
{
    push_number(out, removal.tombstone.number)?;
    removal.moment.push(out)?;
    removal.tombstone.when.push(out)?;
    Ok(())
}

/// Adds the fields of the setting.
fn push_setting<W: Out>(out: &mut W, setting: &Setting) -> Result<(), NoMemory>
    ensures added { OnOk result (W.adds out.old out.new (text_of settings setting.now)) }
    ensures failed { OnErr result W.can_fail }
    ensures rules { OnOk result (IsSetting setting.now) }
{
    match setting {
        Setting::Title(title) => {
            out.push(&[TITLE])?;
            title.text().push(out)?;
            Ok(())
        }
        Setting::Window(size) => {
            out.push(&[WINDOW])?;
            push_number(out, size.get())?;
            Ok(())
        }
    }
}

/// Reads the fields of an operation, which are all the bytes.
pub(crate) fn read_whole(alloc: Global, unread: &mut Unread) -> Result<Op, FieldFault>
    ensures { ReadsWhole operations unread.old.rest.now result unread.new.rest.now }
{
    let operation = read_operation(alloc, unread)?;
    unread
        .rest
        .is_empty()
        .then_some(operation)
        .ok_or(FieldFault::Mismatch)
}

/// Reads the fields of an operation, by the kind that its first byte names.
fn read_operation(alloc: Global, unread: &mut Unread) -> Result<Op, FieldFault>
    ensures { ReadsAll (λ operation. operation) operations unread.old.rest.now result unread.new.rest.now }
{
    if unread.tag(ADD) {
        return Ok(Op::Add(read_entry(alloc, unread)?));
    }
    if unread.tag(CHANGE) {
        return Ok(Op::Change(read_entry(alloc, unread)?));
    }
    if unread.tag(REMOVE) {
        return Ok(Op::Remove(read_removal(alloc, unread)?));
    }
    if unread.tag(SET) {
        let (moment, setting) = read_set(alloc, unread)?;
        return Ok(Op::Set { setting, moment });
    }
    Err(FieldFault::Mismatch)
}

/// Reads the moment of an operation that changes a setting, and the setting.
fn read_set(alloc: Global, unread: &mut Unread) -> Result<(Stamp, Setting), FieldFault>
    ensures { ReadsAll (λ set. set) sets unread.old.rest.now result unread.new.rest.now }
{
    let moment = Stamp::read(alloc, unread)?;
    let setting = read_setting(alloc, unread)?;
    Ok((moment, setting))
}

/// Reads the fields of a setting, by the kind that its first byte names.
fn read_setting(alloc: Global, unread: &mut Unread) -> Result<Setting, FieldFault>
    ensures { ReadsAll (λ setting. setting) settings unread.old.rest.now result unread.new.rest.now }
{
    if unread.tag(TITLE) {
        return Ok(Setting::Title(read_title(alloc, unread)?));
    }
    if unread.tag(WINDOW) {
        return Ok(Setting::Window(read_window(unread)?));
    }
    Err(FieldFault::Mismatch)
}

/// Reads the fields of a removal.
fn read_removal(alloc: Global, unread: &mut Unread) -> Result<Removal, FieldFault>
    ensures { ReadsAll (λ removal. removal) removals unread.old.rest.now result unread.new.rest.now }
{
    let number = read_number(unread)?;
    let moment = Stamp::read(alloc, unread)?;
    let when = read_when(alloc, unread, moment)?;
    Ok(Removal {
        tombstone: Tombstone { number, when },
        moment,
    })
}

/// Reads a timestamp that isn't before the moment.
fn read_when(alloc: Global, unread: &mut Unread, moment: Stamp) -> Result<Stamp, FieldFault>
    ensures { Reads (stamp_from moment) unread.old.rest.now result unread.new.rest.now }
{
    let mut left = *unread;
    let when = Stamp::read(alloc, &mut left)?;
    if when.millis() < moment.millis() {
        return Err(FieldFault::Mismatch);
    }
    *unread = left;
    Ok(when)
}
