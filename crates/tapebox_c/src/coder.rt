//! Makes the bytes of a message from its fields, and reads its fields from its bytes.
ghost use Rattle.std.specs.Prelude.{◌≡◌, ◌+◌, ◌≤◌, length};
ghost use Rattle.reports.specs.ByteRows.{Puts};
ghost use Rattle.tapebox_c.specs.Calls.{whole_message};
ghost use Rattle.tapebox_c.specs.Coding.{DecodesTo, EncodesTo, content_part, fields_of, fields_text, header_part, start_part, with_content, with_header};

use crate::held::whole_message;
use crate::rows::{FieldsRow, MessageRow};
use reports::{Content, Header, LONGEST_MESSAGE, Message, put};
use tape_types::MsgNumber;

/// Makes the bytes of a message from its fields. The fields that its kind does not have are not looked at.
#[unsafe(no_mangle)]
pub extern "C" fn tapebox_encode(fields: &FieldsRow, row: &mut MessageRow) -> u32
    ensures { EncodesTo (fields_text fields.now) (whole_message (fields_text fields.now)) result row.old row.new }
{
    let mut bytes = [0; LONGEST_MESSAGE];
    let len = put_fields(&mut bytes, fields);
    match whole_message(&bytes[..len]) {
        Ok(_) => {
            *row = MessageRow {
                len: len as u32,
                bytes,
            };
            0
        }
        Err(fault) => fault.code(),
    }
}

/// Reads the fields of the message that the bytes are. The fields that its kind does not have are 0.
#[unsafe(no_mangle)]
pub extern "C" fn tapebox_decode(message: &[u8], fields: &mut FieldsRow) -> u32
    ensures { DecodesTo (whole_message message.now) result fields.old fields.new }
{
    match whole_message(message) {
        Ok(message) => {
            *fields = fields_of(&message);
            0
        }
        Err(fault) => fault.code(),
    }
}

/// Puts the fields of a kind at the front of the row, each as it is, and returns how many bytes they have.
fn put_fields(row: &mut [u8], fields: &FieldsRow) -> usize
    requires { 44 ≤ length row.old }
    ensures puts { Puts 0 (fields_text fields.now) row.old row.new result }
    ensures few { result ≤ 44 }
{
    match fields.kind {
        b'R' => {
            let at = put_start(row, 38, b'R');
            let at = put_header(row, at, fields);
            put_content(row, at, fields)
        }
        b'C' => {
            let at = put_start(row, 42, b'C');
            let at = put_header(row, at, fields);
            let at = put(row, at, &fields.target.to_be_bytes());
            put_content(row, at, fields)
        }
        b'X' | b'S' => {
            let at = put_start(row, 26, fields.kind);
            let at = put_header(row, at, fields);
            put(row, at, &fields.target.to_be_bytes())
        }
        // No message has this kind, and reading the byte finds that.
        _ => put_start(row, 1, fields.kind),
    }
}

/// Puts the length of what follows, and the kind, at the front of the row.
fn put_start(row: &mut [u8], len: u16, kind: u8) -> usize
    requires { 3 ≤ length row.old }
    ensures { Puts 0 (start_part len kind) row.old row.new result }
{
    let at = put(row, 0, &len.to_be_bytes());
    put(row, at, &[kind])
}

/// Puts participant, number, moment and symbol into the row.
fn put_header(row: &mut [u8], at: usize, fields: &FieldsRow) -> usize
    requires { at + 21 ≤ length row.old }
    ensures { Puts at (header_part fields.now) row.old row.new result }
{
    let at = put(row, at, &[fields.participant]);
    let at = put(row, at, &fields.number.to_be_bytes());
    let at = put(row, at, &fields.moment.to_be_bytes());
    put(row, at, &fields.symbol)
}

/// Puts price, size and condition into the row.
fn put_content(row: &mut [u8], at: usize, fields: &FieldsRow) -> usize
    requires { at + 16 ≤ length row.old }
    ensures { Puts at (content_part fields.now) row.old row.new result }
{
    let at = put(row, at, &fields.price.to_be_bytes());
    let at = put(row, at, &fields.size.to_be_bytes());
    put(row, at, &fields.condition)
}

/// The fields of a message.
fn fields_of(message: &Message) -> FieldsRow
    ensures { result ≡ fields_of message.now }
{
    match message {
        Message::Report { header, content } => with_content(with_header(b'R', header), content),
        Message::Cancel { header, target } => with_target(with_header(b'X', header), *target),
        Message::Correct {
            header,
            target,
            content,
        } => with_content(with_target(with_header(b'C', header), *target), content),
        Message::Reinstate { header, target } => with_target(with_header(b'S', header), *target),
    }
}

/// The fields that a kind has from its header.
fn with_header(kind: u8, header: &Header) -> FieldsRow
    ensures { result ≡ with_header kind header.now }
{
    FieldsRow {
        moment: header.moment.value(),
        price: 0,
        number: header.number.value(),
        target: 0,
        size: 0,
        kind,
        participant: header.participant.value(),
        condition: [0; 4],
        symbol: header.symbol.value(),
    }
}

/// The fields with a target.
fn with_target(fields: FieldsRow, target: MsgNumber) -> FieldsRow
    ensures { result ≡ record fields { target = target } }
{
    FieldsRow {
        target: target.value(),
        ..fields
    }
}

/// The fields with a content.
fn with_content(fields: FieldsRow, content: &Content) -> FieldsRow
    ensures { result ≡ with_content fields content.now }
{
    FieldsRow {
        price: content.price.value(),
        size: content.size.value(),
        condition: content.condition.value(),
        ..fields
    }
}
