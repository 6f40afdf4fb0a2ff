// The samples of a document: blocks between lines that begin with three back quotes.
ghost use Rattle.std.specs.Prelude.{◌≤◌, ◌<◌, length, IfSome};

// A block: its lines, and the document behind it.
#[derive(Clone, Copy)]
struct Block<'a> {
    lines: &'a [u8],
    rest: &'a [u8],
}

// The program whose answer a block is.
#[derive(Clone, Copy)]
pub enum Program {
    Vregs,
    ToForm2,
    ToForm1,
}

// Two sheets and the answer of `order` to them.
#[derive(Clone, Copy)]
pub struct OrderedPair<'a> {
    pub first: &'a [u8],
    pub second: &'a [u8],
    pub answer: &'a [u8],
}

// A sheet and its answer, two sheets and theirs, a block of one of the five marks that has no partner, or another
// block.
#[derive(Clone, Copy)]
pub enum Sample<'a> {
    Paired {
        program: Program,
        sheet: &'a [u8],
        answer: &'a [u8],
    },
    Ordered(OrderedPair<'a>),
    Alone,
    Other,
}

// How many bytes the first line has.
fn line(doc: &[u8]) -> usize
    ensures within { result ≤ length doc.now }
    ensures some { 0 < length doc.now → 0 < result }
{
    match doc.iter().position(|b| *b == b'\n') {
        Some(k) => k + 1,
        None => doc.len(),
    }
}

// How many bytes lie before the first line that begins with three back quotes.
fn before_fence(doc: &[u8]) -> usize
    ensures { result ≤ length doc.now }
{
    let mut at = 0;
    // From line to line, and where a line ends is known behind it: no index counts here.
    while at < doc.len() && !doc[at..].starts_with(b"```") {
        at += line(&doc[at..]);
    }
    at
}

// The document from that line on.
pub fn from_fence(doc: &[u8]) -> &[u8]
    ensures { length result.now ≤ length doc.now }
{
    let at = before_fence(doc);
    &doc[at..]
}

// The block that begins with the document's first line.
// That the document is not empty is a clause: slices have no such type, and the loop asks for it.
fn first_block(doc: &[u8]) -> Block<'_>
    requires { 0 < length doc.now }
    ensures { length result.rest.now < length doc.now }
{
    let n = line(doc);
    let inner = &doc[n..];
    let m = before_fence(inner);
    let fence = &inner[m..];
    let k = line(fence);
    Block {
        lines: &inner[..m],
        rest: &fence[k..],
    }
}

// The same of a job block: its lines are the sheet, but for the last line feed where the first line says so.
fn job_block(doc: &[u8]) -> Block<'_>
    requires { 0 < length doc.now }
    ensures { length result.rest.now < length doc.now }
{
    let b = first_block(doc);
    if doc.starts_with(b"```job no-last-line-feed\n") {
        if let [lines @ .., _] = b.lines {
            return Block {
                lines,
                rest: b.rest,
            };
        }
    }
    b
}

// The program whose answer begins with the document's first line.
fn first_program(doc: &[u8]) -> Option<Program>
    ensures { IfSome result (λ _. 0 < length doc.now) }
{
    if doc.starts_with(b"```registers\n") {
        return Some(Program::Vregs);
    }
    if doc.starts_with(b"```to_form2\n") {
        return Some(Program::ToForm2);
    }
    if doc.starts_with(b"```to_form1\n") {
        return Some(Program::ToForm1);
    }
    None
}

// Whether the document's first line begins as that of an answer, whatever follows.
fn is_marked(doc: &[u8]) -> bool {
    doc.starts_with(b"```registers")
        || doc.starts_with(b"```to_form")
        || doc.starts_with(b"```order")
}

// What a job sheet makes with the block behind it that answers it, and the document behind that one.
fn paired<'a>(sheet: &'a [u8], doc: &'a [u8]) -> Option<(Sample<'a>, &'a [u8])>
    ensures { IfSome result (λ r. length r.1.now < length doc.now) }
{
    let program = first_program(doc)?;
    let a = first_block(doc);
    let s = Sample::Paired {
        program,
        sheet,
        answer: a.lines,
    };
    Some((s, a.rest))
}

// The same with a second job block and the answer of `order` behind that.
fn ordered<'a>(first: &'a [u8], doc: &'a [u8]) -> Option<(Sample<'a>, &'a [u8])>
    ensures { IfSome result (λ r. length r.1.now < length doc.now) }
{
    if !doc.starts_with(b"```job") {
        return None;
    }
    let b = job_block(doc);
    let fence = from_fence(b.rest);
    if !fence.starts_with(b"```order\n") {
        return None;
    }
    let a = first_block(fence);
    let pair = OrderedPair {
        first,
        second: b.lines,
        answer: a.lines,
    };
    Some((Sample::Ordered(pair), a.rest))
}

// What begins with the document's first line, which is one of three back quotes, and the document behind it.
pub fn first_sample(doc: &[u8]) -> (Sample<'_>, &[u8])
    requires { 0 < length doc.now }
    ensures { length result.1.now < length doc.now }
{
    let b = job_block(doc);
    if !doc.starts_with(b"```job") {
        let s = if is_marked(doc) {
            Sample::Alone
        } else {
            Sample::Other
        };
        return (s, b.rest);
    }
    let fence = from_fence(b.rest);
    if let Some(pair) = paired(b.lines, fence) {
        return pair;
    }
    match ordered(b.lines, fence) {
        Some(three) => three,
        None => (Sample::Alone, b.rest),
    }
}
