//! URIs and the names of their files.

use acq_base::Uri;
use case_words::{Page, Refused, readable};
use std::alloc::Global;
use uri_names::{UriError, below, host_key, list_name, read_base, read_uri, resolve, uri_text};

/// Appends a text read as a URI, or why it is none.
pub fn put_read(alloc: Global, page: &mut Page, read: Result<Uri, UriError>) {
    match read {
        Ok(uri) => put_uri(alloc, page, &uri),
        Err(refusal) => page.put_refusal(&refusal),
    }
}

/// Appends a URI.
pub fn put_uri(alloc: Global, page: &mut Page, uri: &Uri) {
    match uri_text(alloc, uri) {
        Ok(text) => page.put_name(text.as_bytes()),
        Err(_) => page.cut(),
    }
}

/// A text that is to be a URI.
pub fn uri_of(alloc: Global, text: &[u8]) -> Result<Uri, Refused> {
    readable(read_uri(alloc, text))
}

/// Appends where a redirect from a URI leads.
pub fn put_redirect(
    alloc: Global,
    page: &mut Page,
    from: &[u8],
    place: &[u8],
) -> Result<(), Refused> {
    let from = uri_of(alloc, from)?;
    match resolve(alloc, &from, place)? {
        Some(uri) => put_uri(alloc, page, &uri),
        None => page.put("nowhere"),
    }
    Ok(())
}

/// Appends the name of a URI's list, and the key of its host.
pub fn put_names(alloc: Global, page: &mut Page, text: &[u8]) -> Result<(), Refused> {
    let uri = uri_of(alloc, text)?;
    page.put_name(list_name(alloc, &uri)?.0.as_bytes());
    page.put(" ");
    page.put_name(host_key(alloc, &uri)?.as_bytes());
    Ok(())
}

/// Appends the URI of a path below a base.
pub fn put_below(alloc: Global, page: &mut Page, base: &[u8], path: &[u8]) -> Result<(), Refused> {
    let base = readable(read_base(alloc, base))?;
    put_uri(alloc, page, &below(alloc, &base, path)?);
    Ok(())
}
