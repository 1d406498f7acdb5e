//! The words of a command line.

use case_words::{Page, Refused, text};
use command_words::{Options, Request, Side, read_side, read_words};
use std::alloc::Global;

/// Appends what words ask for: of `update` the pairs, each in brackets, and a `+` for `--together`; of `generate` the number;
/// and of other commands their words as they were read.
pub fn put_asked(alloc: Global, page: &mut Page, words: &[&[u8]]) -> Result<(), Refused> {
    let given = strings_of(alloc, words)?;
    put_request(alloc, page, given.as_slice())
}

fn strings_of(alloc: Global, words: &[&[u8]]) -> Result<Vec<String>, Refused> {
    let mut strings = Vec::new(alloc);
    for word in words {
        strings.push(String::from_str(alloc, text(word)?)?)?;
    }
    Ok(strings)
}

fn put_request(alloc: Global, page: &mut Page, words: &[String]) -> Result<(), Refused> {
    match read_words(alloc, words)? {
        Some(Request::Update(options)) => put_options(page, &options),
        Some(Request::Generate(number)) => page.show(format_args!("generate {number}")),
        None => put_side(page, read_side(alloc, words)?),
    }
    Ok(())
}

fn put_options(page: &mut Page, options: &Options) {
    page.put("update ");
    for pair in options.pairs.as_slice() {
        put_bracketed(page, pair.as_bytes());
    }
    if options.together {
        page.put("+");
    }
}

fn put_bracketed(page: &mut Page, word: &[u8]) {
    page.put("[");
    page.put_name(word);
    page.put("]");
}

fn put_side(page: &mut Page, side: Option<Side>) {
    match side {
        Some(Side::Method { http: false }) => page.put("method file"),
        Some(Side::Method { http: true }) => page.put("method http"),
        Some(
            Side::Serve {
                root,
                port,
                connections,
            },
        ) => {
            page.put("serve ");
            page.put_name(root.as_bytes());
            page.show(format_args!(" {port} {connections}"));
        }
        Some(Side::Download { name, version }) => {
            page.put("download ");
            put_bracketed(page, name.as_bytes());
            put_bracketed(page, version.as_bytes());
        }
        None => page.put("refused"),
    }
}
