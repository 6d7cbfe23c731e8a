//! Document types by which browsers show a page as old ones did (HTML Standard, section 13.2.6.4.1).

/// The beginnings of the public identifiers of such document types.
static OLD: [&[u8]; 19] = [
    b"+//silmaril//dtd html pro v0r11 19970101//",
    b"-//as//dtd html 3.0 aswedit + extensions//",
    b"-//advasoft ltd//dtd html 3.0 aswedit + extensions//",
    b"-//ietf//dtd html",
    b"-//metrius//dtd metrius presentational//",
    b"-//microsoft//dtd internet explorer",
    b"-//netscape comm. corp.//dtd",
    b"-//o'reilly and associates//dtd html",
    b"-//softquad",
    b"-//spyglass//dtd html 2.0 extended//",
    b"-//sq//dtd html 2.0 hotmetal",
    b"-//sun microsystems corp.//dtd hotjava",
    b"-//w3c//dtd html 3",
    b"-//w3c//dtd html 4.0 frameset",
    b"-//w3c//dtd html 4.0 transitional//",
    b"-//w3c//dtd html experimental",
    b"-//w3c//dtd w3 html",
    b"-//w3o//dtd w3 html",
    b"-//webtechs//dtd mozilla html",
];

/// The beginnings of those that are such without a system identifier.
static OLD_ALONE: [&[u8]; 2] = [
    b"-//w3c//dtd html 4.01 frameset//",
    b"-//w3c//dtd html 4.01 transitional//",
];

const OLD_SYSTEM: &[u8] = b"http://www.ibm.com/data/dtd/v11/ibmxhtml1-transitional.dtd";

/// Whether the text begins with these letters, in any case.
fn begins(text: &[u8], letters: &[u8]) -> bool {
    match text.get(..letters.len()) {
        Some(front) => front.eq_ignore_ascii_case(letters),
        None => false,
    }
}

/// Returns the rest after white space.
fn past_spaces(text: &[u8]) -> &[u8] {
    let count = text.iter().take_while(|byte| is_space(**byte)).count();
    text.get(count..).unwrap_or(&[])
}

/// Whether the byte is white space.
fn is_space(byte: u8) -> bool {
    matches!(byte, b' ' | b'\t' | b'\n' | b'\r' | b'\x0C')
}

/// Returns the identifier in quotes at the start, and the rest after white space.
fn take_identifier(text: &[u8]) -> Option<(&[u8], &[u8])> {
    let (quote, after) = match text {
        [quote @ (b'"' | b'\''), after @ ..] => (*quote, after),
        _ => return None,
    };
    let count = after.iter().position(|byte| *byte == quote)?;
    let rest = after.get(count.saturating_add(1)..).unwrap_or(&[]);
    Some((after.get(..count).unwrap_or(&[]), past_spaces(rest)))
}

/// Whether a page with the document type, from `<!` to `>`, is shown as old browsers did.
pub(crate) fn is_quirky(text: &[u8]) -> bool {
    let Some((b'>', body)) = text.split_last() else {
        return true;
    };
    let body = past_spaces(body.get(9..).unwrap_or(&[]));
    let count = body.iter().take_while(|byte| !is_space(**byte)).count();
    let (name, rest) = body.split_at(count.min(body.len()));
    let rest = past_spaces(rest);
    if !name.eq_ignore_ascii_case(b"html") {
        return true;
    }
    if rest.is_empty() {
        return false;
    }
    let is_system = begins(rest, b"system");
    if !is_system && !begins(rest, b"public") {
        return true;
    }
    let Some((first, rest)) = take_identifier(past_spaces(rest.get(6..).unwrap_or(&[]))) else {
        return true;
    };
    if is_system {
        return first.eq_ignore_ascii_case(OLD_SYSTEM);
    }
    match take_identifier(rest) {
        Some((second, _)) => is_old(first, second),
        None => !rest.is_empty() || is_old(first, &[]),
    }
}

/// Whether the identifiers are those of such a document type.
fn is_old(public: &[u8], system: &[u8]) -> bool {
    OLD.iter().any(|letters| begins(public, letters))
        || public.eq_ignore_ascii_case(b"-/w3c/dtd html 4.0 transitional/en")
        || public.eq_ignore_ascii_case(b"html")
        || system.eq_ignore_ascii_case(OLD_SYSTEM)
        || system.is_empty() && OLD_ALONE.iter().any(|letters| begins(public, letters))
}
