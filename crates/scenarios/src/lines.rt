//! The lines of a scenario.

use crate::given::{Configured, Fails, Given, Has, Held, Kind, LaneFails, Server, Stop, Tell};
use crate::quoted::{read_bytes, read_named, read_pieces};
use crate::refused::{Refused, said, utf8};
use acq_base::{Bytes, Row, Text};
use acq_outside::{Place, is_name};
use std::alloc::Global;

/// Takes a line that says something of a run.
pub fn take_line(alloc: Global, given: &mut Given, line: &str) -> Result<(), Refused> {
    let (kind, rest) = halves(line);
    match kind {
        "word" => given.words.push(read_word(alloc, rest)?)?,
        "etc" => given.etc.push(read_configured(alloc, rest)?)?,
        "mirror" => given.mirror.push(read_answer(alloc, rest)?)?,
        "faulty" => given.faulty.push(read_faulty(alloc, rest)?)?,
        "tree" => given.tree.push(read_file(alloc, rest)?)?,
        "peer" => given.peers.push(read_pieces(alloc, rest)?)?,
        "disk" => take_file(alloc, given, rest)?,
        _ => return take_way(alloc, given, kind, rest),
    }
    Ok(())
}

/// Takes a line that says how it is run.
fn take_way(alloc: Global, given: &mut Given, kind: &str, rest: &str) -> Result<(), Refused> {
    match kind {
        "now" => given.now = said(rest.parse::<i64>())?,
        "methods" => given.methods = said(rest.parse::<u8>())?,
        "server" => given.server = Some(read_server(alloc, rest)?),
        "fails" => take_fails(&mut given.fails, rest)?,
        "lane" => take_lane(alloc, &mut given.fails, rest)?,
        "gate" => given.gate = Some(read_held(alloc, rest)?),
        "stop" => given.stop = read_stop(alloc, rest)?,
        "tell" => take_tell(&mut given.tell, rest)?,
        "held" if rest.is_empty() => given.held = true,
        "board" if rest.is_empty() => given.kind = Kind::Board,
        "item" if rest.is_empty() => given.kind = Kind::Item,
        "single" if rest.is_empty() => given.kind = Kind::Single,
        _ => return Err(Refused::Line),
    }
    Ok(())
}

/// What stands before the first space, and what stands behind it.
fn halves(line: &str) -> (&str, &str) {
    line.split_once(' ').unwrap_or((line, ""))
}

/// A word of the command line.
fn read_word(alloc: Global, rest: &str) -> Result<String, Refused> {
    let bytes = read_bytes(alloc, rest)?;
    Ok(String::from_str(alloc, utf8(bytes.as_slice())?)?)
}

/// A file of the configuration folder, by its path there.
fn read_configured(alloc: Global, rest: &str) -> Result<Configured, Refused> {
    let (path, content) = read_named(alloc, rest)?;
    let (place, name) = place_of(path)?;
    Ok(Configured {
        place,
        name: Text::from_bytes(alloc, name.as_bytes())?,
        content,
    })
}

fn place_of(path: &str) -> Result<(Place, &str), Refused> {
    match path.split_once('/') {
        None if path == "sources.list" => Ok((Place::SourcesList, "")),
        None if path == "apt.conf" => Ok((Place::Conf, "")),
        Some(("sources.list.d", name)) => Ok((Place::SourcesParts, name)),
        Some(("apt.conf.d", name)) => Ok((Place::ConfParts, name)),
        _ => Err(Refused::Line),
    }
}

/// A URI, and how often asks there fail.
fn read_faulty(alloc: Global, rest: &str) -> Result<(Text, u64), Refused> {
    let (uri, times) = halves(rest);
    let times = said(times.parse::<u64>())?;
    Ok((Text::from_bytes(alloc, uri.as_bytes())?, times))
}

/// A URI, and what a mirror has under it.
fn read_answer(alloc: Global, rest: &str) -> Result<(Text, Has), Refused> {
    let (uri, rest) = halves(rest);
    let has = read_has(alloc, rest)?;
    Ok((Text::from_bytes(alloc, uri.as_bytes())?, has))
}

/// What a mirror has under a URI.
fn read_has(alloc: Global, rest: &str) -> Result<Has, Refused> {
    let (kind, value) = halves(rest);
    Ok(match kind {
        "served" => Has::File(read_bytes(alloc, value)?),
        "whole" => Has::Whole(read_bytes(alloc, value)?),
        "big" if value.is_empty() => Has::TooBig,
        "garbled" => Has::Garbled(read_number(value)?),
        "letters" => Has::Letters(read_number(value)?),
        "moved" if value == "-" => Has::Moved(None),
        "moved" => Has::Moved(Some(Text::from_bytes(alloc, value.as_bytes())?)),
        "absent" => Has::Absent(said(value.parse::<u16>())?),
        _ => return Err(Refused::Line),
    })
}

/// A file by its path, and its bytes.
fn read_file(alloc: Global, rest: &str) -> Result<(Text, Bytes), Refused> {
    let (path, content) = read_named(alloc, rest)?;
    Ok((Text::from_bytes(alloc, path.as_bytes())?, content))
}

/// The root of a server, its host and its port.
fn read_server(alloc: Global, rest: &str) -> Result<Server, Refused> {
    let (root, place) = halves(rest);
    let (host, port) = halves(place);
    Ok(Server {
        root: Text::from_bytes(alloc, root.as_bytes())?,
        host: Text::from_bytes(alloc, host.as_bytes())?,
        port: said(port.parse::<u16>())?,
    })
}

fn take_file(alloc: Global, given: &mut Given, rest: &str) -> Result<(), Refused> {
    let (name, content) = read_file(alloc, rest)?;
    if !is_name(name.as_bytes()) {
        return Err(Refused::Names);
    }
    given.put(name, content)
}

fn take_fails(fails: &mut Fails, rest: &str) -> Result<(), Refused> {
    let (object, numbers) = halves(rest);
    let calls = match object {
        "begin" => &mut fails.begin,
        "more" => &mut fails.more,
        "disk" => &mut fails.disk,
        "etc" => &mut fails.etc,
        "sink" => &mut fails.sink,
        "tree" => &mut fails.tree,
        "link" => &mut fails.link,
        _ => return Err(Refused::Line),
    };
    take_numbers(calls, numbers)
}

/// The number of a method, and which of its calls of one kind are to fail. A method has one such line.
fn take_lane(alloc: Global, fails: &mut Fails, rest: &str) -> Result<(), Refused> {
    let (lane, rest) = halves(rest);
    let (object, numbers) = halves(rest);
    let mut of_lane = LaneFails {
        lane: said(lane.parse::<u8>())?,
        begin: Row::new(alloc),
        more: Row::new(alloc),
    };
    let calls = match object {
        "begin" => &mut of_lane.begin,
        "more" => &mut of_lane.more,
        _ => return Err(Refused::Line),
    };
    take_numbers(calls, numbers)?;
    Ok(fails.lanes.push(of_lane)?)
}

/// Numbers with a space between two of them.
fn take_numbers(calls: &mut Row<u64>, numbers: &str) -> Result<(), Refused> {
    for number in numbers.split(' ') {
        calls.push(read_number(number)?)?;
    }
    Ok(())
}

/// Two hosts.
fn read_held(alloc: Global, rest: &str) -> Result<Held, Refused> {
    let (host, awaited) = halves(rest);
    Ok(Held {
        host: Text::from_bytes(alloc, host.as_bytes())?,
        awaited: Text::from_bytes(alloc, awaited.as_bytes())?,
    })
}

/// A number without a sign.
pub fn read_number(text: &str) -> Result<u64, Refused> {
    said(text.parse::<u64>())
}

/// The bytes of a choice, each behind a space.
pub fn read_choice(alloc: Global, text: &str) -> Result<Row<u8>, Refused> {
    let mut choice = Row::new(alloc);
    let mut bytes = text.split(' ');
    if bytes.next() != Some("") {
        return Err(Refused::Line);
    }
    for byte in bytes {
        choice.push(said(byte.parse::<u8>())?)?;
    }
    Ok(choice)
}

/// How a run is stopped: `all LEAST`, `fault LEAST`, or the number of calls and the bytes of a choice.
fn read_stop(alloc: Global, rest: &str) -> Result<Stop, Refused> {
    match rest.split_once(' ') {
        Some(("all", least)) => Ok(Stop::Everywhere {
            least: read_number(least)?,
        }),
        Some(("fault", least)) => Ok(Stop::EachFails {
            least: read_number(least)?,
        }),
        Some((calls, _)) => Ok(Stop::After {
            calls: read_number(calls)?,
            choice: read_choice(alloc, rest.strip_prefix(calls).unwrap_or(""))?,
        }),
        None => Err(Refused::Line),
    }
}

fn take_tell(tell: &mut Tell, rest: &str) -> Result<(), Refused> {
    for word in rest.split(' ') {
        match word {
            "log" => tell.log = true,
            "faults" => tell.faults = true,
            "moments" => tell.moments = true,
            "partial" => tell.partial = true,
            "journal" => tell.journal = true,
            "untouched" => tell.untouched = true,
            "items" => tell.items = true,
            "lanes" => tell.lanes = true,
            _ => return Err(Refused::Line),
        }
    }
    Ok(())
}
