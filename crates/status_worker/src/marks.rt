//! Texts within marks: HTML names what it would read as a mark, and a label of Prometheus what would end its value.
ghost use Rattle.std.specs.Prelude.{◌≡◌, ◌++◌, OnOk};
ghost use Rattle.std.specs.Option.{option_map};
ghost use Rattle.status_worker.specs.Marks.{html_byte, html_name, html_text, label_byte, label_name, label_text};

use jk_io::{Bytes, NoMemory};

/// The name of a byte that HTML reads as a mark.
fn html_name(byte: u8) -> Option<&'static [u8]>
    ensures { option_map (λ name. name.now) result ≡ html_name byte }
{
    match byte {
        b'&' => Some(b"&amp;"),
        b'<' => Some(b"&lt;"),
        b'>' => Some(b"&gt;"),
        b'"' => Some(b"&quot;"),
        b'\'' => Some(b"&#39;"),
        _ => None,
    }
}

fn put_html_byte(out: &mut Bytes, byte: u8) -> Result<(), NoMemory>
    ensures { OnOk result (out.new ≡ out.old ++ html_byte byte) }
{
    match html_name(byte) {
        Some(name) => out.extend(name),
        None => out.push(byte),
    }
}

/// Adds a text that HTML reads as text, between tags or in a quoted value.
pub(crate) fn put_html(out: &mut Bytes, text: &[u8]) -> Result<(), NoMemory>
    ensures { OnOk result (out.new ≡ out.old ++ html_text text.now) }
{
    for byte in text {
        put_html_byte(out, *byte)?;
    }
    Ok(())
}

/// The two bytes for one that can't stand in a label's value.
fn label_name(byte: u8) -> Option<&'static [u8]>
    ensures { option_map (λ name. name.now) result ≡ label_name byte }
{
    match byte {
        b'\\' => Some(b"\\\\"),
        b'"' => Some(b"\\\""),
        b'\n' => Some(b"\\n"),
        _ => None,
    }
}

fn put_label_byte(out: &mut Bytes, byte: u8) -> Result<(), NoMemory>
    ensures { OnOk result (out.new ≡ out.old ++ label_byte byte) }
{
    match label_name(byte) {
        Some(name) => out.extend(name),
        None => out.push(byte),
    }
}

/// Adds a text as the value of a label, without its quotes.
pub(crate) fn put_label(out: &mut Bytes, text: &[u8]) -> Result<(), NoMemory>
    ensures { OnOk result (out.new ≡ out.old ++ label_text text.now) }
{
    for byte in text {
        put_label_byte(out, *byte)?;
    }
    Ok(())
}
