//! A URI's text, the key of its host, and the name of its list. It may take memory, and touches nothing else.
ghost use Rattle.std.specs.Prelude.{◌≡◌, ◌+◌, ◌<◌, ◌≤◌, ◌++◌, false, length, Contains, IfOk, OnOk};
ghost use Rattle.std.specs.Fmt.{digit_glyph};
ghost use Rattle.std.specs.List.{flat_map};
ghost use Rattle.acq_base.specs.Uri as spec;
ghost use Rattle.acq_base.specs.declared.uri.Uri.{Uri};
ghost use Rattle.uri_names.specs.Names.{host_key_of};

use acq_base::{ListName, NoMemory, Scheme, Text, TryCopy, Uri};
use std::alloc::Global;

/// The text of a URI (RFC 3986, section 5.3): `http://HOST`, with `:PORT` where the port isn't 80, and the path, or
/// `file://` and the path.
#[tactic(auto, unfolding(acq_base::specs::Uri::text_of_parts))]
pub fn uri_text(alloc: Global, uri: &Uri) -> Result<Text, NoMemory>
    ensures { IfOk result (λ text. text ≡ spec.uri_text uri.now) }
{
    match uri.scheme {
        Scheme::Http => {
            let mut text = Text::from_bytes(alloc, b"http://")?;
            text.append(uri.host.as_bytes())?;
            append_port(alloc, &mut text, uri.port)?;
            text.append(uri.path.as_bytes())?;
            Ok(text)
        }
        Scheme::File => {
            let mut text = Text::from_bytes(alloc, b"file://")?;
            text.append(uri.path.as_bytes())?;
            Ok(text)
        }
    }
}

/// `:` and the port, or nothing for the default port of http.
fn append_port(alloc: Global, text: &mut Text, port: u16) -> Result<(), NoMemory>
    ensures { OnOk result (text.new ≡ text.old ++ spec.port_text port) }
{
    if port == 80 {
        return Ok(());
    }
    let written = format!(in alloc; ":{port}")?;
    text.append(written.as_bytes())
}

/// `HOST:PORT` of an http URI, the port always written, and `file` of a file URI.
#[tactic(auto, unfolding(crate::specs::Names::key_of_parts))]
pub fn host_key(alloc: Global, uri: &Uri) -> Result<Text, NoMemory>
    ensures { IfOk result (λ key. key ≡ host_key_of uri.now) }
{
    match uri.scheme {
        Scheme::Http => {
            let port = uri.port;
            let written = format!(in alloc; ":{port}")?;
            let mut key = uri.host.copy(alloc)?;
            key.append(written.as_bytes())?;
            Ok(key)
        }
        Scheme::File => Text::from_bytes(alloc, b"file"),
    }
}

/// The name under which the file of a URI is installed: host, port where it isn't 80, and path, in which `/` becomes
/// `_`, letters, digits and `.-+:` stay, and any other byte becomes `%` and two lower-case hexadecimal digits.
///
/// The name of a sound URI holds a `_`, and is at most seven bytes shorter than the URI's text.
pub fn list_name(alloc: Global, uri: &Uri) -> Result<ListName, NoMemory>
    ensures value { IfOk result (λ name. name.0 ≡ spec.list_name uri.now) }
    ensures marked { spec.IsSound uri.now → IfOk result (λ name. Contains name.0 95) }
    ensures short { IfOk result (λ name. length (spec.uri_text uri.now) ≤ 7 + length name.0) }
{
    escaped(alloc, uri)
}

/// Two sound URIs with one list name are one URI, so no two of them share a file.
#[tactic(auto, using(crate::proofs::SameName::same_name))]
pub fn names_are_apart()
    ensures { (a b : Uri) → spec.IsSound a → spec.IsSound b → spec.list_name a ≡ spec.list_name b → a ≡ b }
{}

#[tactic(auto, unfolding(acq_base::specs::Uri::name_of_parts))]
fn escaped(alloc: Global, uri: &Uri) -> Result<ListName, NoMemory>
    ensures { IfOk result (λ name. name.0 ≡ spec.list_name uri.now) }
{
    let mut name = Text::new(alloc);
    if uri.scheme == Scheme::Http {
        append_escaped(&mut name, uri.host.as_bytes())?;
        let mut port = Text::new(alloc);
        append_port(alloc, &mut port, uri.port)?;
        append_escaped(&mut name, port.as_bytes())?;
    }
    append_escaped(&mut name, uri.path.as_bytes())?;
    Ok(ListName(name))
}

/// Appends what stands in a list name for bytes of a URI.
fn append_escaped(name: &mut Text, bytes: &[u8]) -> Result<(), NoMemory>
    ensures { OnOk result (name.new ≡ name.old ++ flat_map spec.name_byte bytes.now) }
{
    for byte in bytes {
        append_escape(name, *byte)?;
    }
    Ok(())
}

/// Appends what stands in a list name for one byte of a URI.
fn append_escape(name: &mut Text, byte: u8) -> Result<(), NoMemory>
    ensures { OnOk result (name.new ≡ name.old ++ spec.name_byte byte) }
{
    match byte {
        b'/' => name.push(b'_'),
        b'.' | b'-' | b'+' | b':' => name.push(byte),
        _ if byte.is_ascii_alphanumeric() => name.push(byte),
        _ => name.append(&[b'%', hex_digit(byte / 16), hex_digit(byte % 16)]),
    }
}

/// A lower-case hexadecimal digit.
fn hex_digit(value: u8) -> u8
    requires { value < 16 }
    ensures { result ≡ digit_glyph false value }
{
    if value < 10 {
        b'0' + value
    } else {
        b'a' + (value - 10)
    }
}
