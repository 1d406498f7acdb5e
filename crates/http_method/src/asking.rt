//! Asks a peer for a file.
ghost use Rattle.std.specs.Prelude.{◌≡◌, ◌⊎◌, ◌<◌, ◌^◌, false, is_ok, true, IfOk, IfSome, OnErr, OnOk};
ghost use Rattle.acq_base.specs.declared.uri.Scheme.TheVariants.{Http};
ghost use Rattle.acq_base.specs.Uri.{IsSound};
ghost use Rattle.acq_outside.specs.Count.{Rose};
ghost use Rattle.acq_outside.specs.Word.{CanBegin, IsSoundWord, begun};
ghost use Rattle.acq_net.specs.OverLink.{Asks, Opens, Says};
ghost use Rattle.http_wire.specs.Request.{request_text};
ghost use Rattle.http_method.specs.Line.{Connects, Sends, line_of};
ghost use Rattle.http_method.specs.Reading.{BeginsAgain, BeginsAnew, BeginsOn, IsFromPeer, IsKeptBehind, IsOpen, IsMirrorsWord, Keeps, before_anew, ended_at_once, is_end, is_for, is_open_for, place_of};

use crate::hearing::{new_room, receive_once};
use crate::reading::{Behind, Place, Reading, Said};
use crate::saying::{next_word, starved};
use acq_base::{Bytes, Job, Uri};
use acq_net::Link;
use acq_outside::{Fault, OutError};
use http_wire::request;
use std::alloc::Global;

/// Whether a connection is kept for a URI's host and port.
fn is_for(kept: &Option<Place>, uri: &Uri) -> bool
    ensures { result ≡ is_for kept.now uri.now }
{
    match kept {
        Some(place) => place.host == uri.host && place.port == uri.port,
        None => false,
    }
}

/// Starts a fetch of an http URI, on the connection that is kept, if it is one to the URI's host and port.
#[tactic(auto, using(crate::proofs::Begins::anew_on, crate::proofs::Begins::again_on, crate::proofs::Begins::dry_anew, crate::proofs::Begins::dry_heard))]
pub fn ask<L: Link>(
    alloc: Global,
    link: &mut L,
    kept: Option<Place>,
    job: &Job,
) -> Result<Said, Fault>
    requires sound { IsSound job.now.uri }
    requires from { CanBegin job.now }
    requires http { job.now.uri.scheme ≡ Http }
    requires kept { IfSome kept (IsOpen (line_of L.Link link.old)) }
    requires opened { IfSome kept (λ _. L.opened link.old ≡ true) }

    ensures frame { Asks L.Link link.old link.new result }

    ensures opened { IfOk result (λ said. L.opened link.new ≡ is_open_for said.kept said.reading) }
    ensures closed { OnErr result (L.opened link.new ≡ false) }
    ensures heard { IfOk result (λ said. IsFromPeer said.word → Rose (L.made link.old) (L.made link.new) ⊎ (L.answered link.new ≡ true)) }
    ensures made { is_for kept job.now.uri ≡ true → (L.made link.new ≡ L.made link.old) ⊎ Rose (L.ends link.old) (L.ends link.new) }
    ensures anew { (L.made link.new ≡ L.made link.old) ⊎ (L.former link.new ≡ before_anew kept job.now (L.talk link.old)) }
    ensures sound { IfOk result (λ said. IsSoundWord said.word) }
    ensures told { IfOk result (IsMirrorsWord (L.world link.old) (begun job.now)) }
    ensures keeps { IfOk result (λ said. Keeps (line_of L.Link link.new) said.kept said.reading) }
    ensures behind { IfOk result (λ said. IsKeptBehind said.word said.kept) }
    ensures says { IfOk result (BeginsOn (line_of L.Link link.old) kept (line_of L.Link link.new) job.now) }
{
    let Ok(text) = request(alloc, &job.uri, job.from) else {
        link.close();
        return Ok(starved());
    };
    if is_for(&kept, &job.uri) {
        return ask_again(alloc, link, &text, job);
    }
    ask_anew(alloc, link, &text, job)
}

/// Asks on a new connection.
#[tactic(auto, using(crate::proofs::Begins::dry_heard))]
fn ask_anew<L: Link>(alloc: Global, link: &mut L, text: &Bytes, job: &Job) -> Result<Said, Fault>
    requires sound { IsSound job.now.uri }
    requires from { CanBegin job.now }
    requires http { job.now.uri.scheme ≡ Http }
    requires small { job.now.from < 2 ^ 64 }
    requires text { text.now ≡ request_text job.now.uri job.now.from }

    ensures frame { Asks L.Link link.old link.new result }

    ensures opened { IfOk result (λ said. L.opened link.new ≡ is_open_for said.kept said.reading) }
    ensures closed { OnErr result (L.opened link.new ≡ false) }
    ensures made { IfOk result (λ said. IsFromPeer said.word → Rose (L.made link.old) (L.made link.new)) }
    ensures anew { (L.made link.new ≡ L.made link.old) ⊎ (L.former link.new ≡ L.talk link.old) }
    ensures sound { IfOk result (λ said. IsSoundWord said.word) }
    ensures told { IfOk result (IsMirrorsWord (L.world link.old) (begun job.now)) }
    ensures keeps { IfOk result (λ said. Keeps (line_of L.Link link.new) said.kept said.reading) }
    ensures behind { IfOk result (λ said. IsKeptBehind said.word said.kept) }
    ensures says { IfOk result (BeginsAnew (line_of L.Link link.new) job.now) }
{
    let Ok(reading) = Reading::new(alloc, job) else {
        link.close();
        return Ok(starved());
    };
    connect(link, &job.uri)?;
    send(link, text)?;
    next_word(alloc, link, reading)
}

/// Connects to the host and port of a URI.
fn connect<L: Link>(link: &mut L, uri: &Uri) -> Result<(), Fault>
    ensures frame { Opens L.Link link.old link.new result }
    ensures made { Rose (L.made link.old) (L.made link.new) }
    ensures opened { L.opened link.new ≡ is_ok result }
    ensures former { L.former link.new ≡ L.talk link.old }
    ensures fresh { OnOk result (Connects uri.now.host uri.now.port (line_of L.Link link.old) (line_of L.Link link.new)) }
{
    if link.connect(&uri.host, uri.port).is_err() {
        link.close();
        return Err(Fault);
    }
    Ok(())
}

/// Sends a request.
fn send<L: Link>(link: &mut L, text: &Bytes) -> Result<(), Fault>
    ensures frame { Says L.Link link.old link.new result }
    ensures opened { OnOk result (L.opened link.new ≡ L.opened link.old) }
    ensures closed { OnErr result (L.opened link.new ≡ false) }
    ensures sent { OnOk result (Sends text.now (line_of L.Link link.old) (line_of L.Link link.new)) }
{
    if link.send(text.as_slice()).is_err() {
        link.close();
        return Err(Fault);
    }
    Ok(())
}

/// Asks on the connection that is kept, and anew once where its peer ends before the first byte of a response.
#[tactic(auto, using(crate::proofs::Begins::dry_heard))]
fn ask_again<L: Link>(alloc: Global, link: &mut L, text: &Bytes, job: &Job) -> Result<Said, Fault>
    requires sound { IsSound job.now.uri }
    requires from { CanBegin job.now }
    requires http { job.now.uri.scheme ≡ Http }
    requires small { job.now.from < 2 ^ 64 }
    requires text { text.now ≡ request_text job.now.uri job.now.from }
    requires ready { IsOpen (line_of L.Link link.old) (place_of job.now.uri) }
    requires opened { L.opened link.old ≡ true }

    ensures frame { Asks L.Link link.old link.new result }

    ensures opened { IfOk result (λ said. L.opened link.new ≡ is_open_for said.kept said.reading) }
    ensures closed { OnErr result (L.opened link.new ≡ false) }
    ensures heard { IfOk result (λ said. IsFromPeer said.word → Rose (L.made link.old) (L.made link.new) ⊎ (L.answered link.new ≡ true)) }
    ensures made { (L.made link.new ≡ L.made link.old) ⊎ Rose (L.ends link.old) (L.ends link.new) }
    ensures anew { (L.made link.new ≡ L.made link.old) ⊎ (L.former link.new ≡ ended_at_once job.now (L.talk link.old)) }
    ensures sound { IfOk result (λ said. IsSoundWord said.word) }
    ensures told { IfOk result (IsMirrorsWord (L.world link.old) (begun job.now)) }
    ensures keeps { IfOk result (λ said. Keeps (line_of L.Link link.new) said.kept said.reading) }
    ensures behind { IfOk result (λ said. IsKeptBehind said.word said.kept) }
    ensures says { IfOk result (BeginsAgain (line_of L.Link link.old) (line_of L.Link link.new) job.now) }
{
    let Ok(reading) = Reading::new(alloc, job) else {
        link.close();
        return Ok(starved());
    };
    let Ok(mut room) = new_room(alloc, &reading.fetch) else {
        link.close();
        return Ok(starved());
    };
    let mut reading = reading;
    send(link, text)?;
    match receive_once(alloc, link, &mut reading, room.as_mut_slice()) {
        Ok(()) => {
            if is_end(reading.behind) {
                return ask_anew(alloc, link, text, job);
            }
            next_word(alloc, link, reading)
        }
        Err(OutError::Fault) => {
            link.close();
            Err(Fault)
        }
        Err(OutError::NoMemory) => {
            link.close();
            Ok(starved())
        }
    }
}

/// Whether the peer has ended.
fn is_end(behind: Behind) -> bool
    ensures { result ≡ is_end behind }
{
    matches!(behind, Behind::End)
}
