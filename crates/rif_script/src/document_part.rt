ghost use Rattle.std.specs.Prelude.{◌≡◌, ℕ, drop, take};
ghost use Rattle.rif_script.specs.Jobs.{document_text, first_script_line, is_separator, lines_of, script_lines};
ghost use Rattle.rif_script.specs.ReadingLines.{line_length};

/// The document of a job, and its script. Without a line `%%` the script is empty.
#[derive(Clone, Copy, Debug)]
pub struct Parts<'a> {
    pub document: &'a [u8],
    pub script: &'a [u8],
    /// The number of the script's first line, counted from 1 over the whole job.
    pub first_line: u64,
}

/// The parts of a job: the document is what stands before the first line that is exactly `%%`, which one
/// carriage return may end, and the script what stands behind it. The cost is the document's length.
///
/// Source: our own (docs/FORMATS.md, "Jobs").
pub fn parts_of(bytes: &[u8]) -> Parts<'_>
    ensures document { result.document.now ≡ document_text bytes.now }
    ensures script { lines_of result.script.now ≡ script_lines bytes.now }
    ensures first { result.first_line ≡ first_script_line bytes.now }
    ensures last { (from : ℕ) × (result.script.now ≡ drop from bytes.now) }
{
    let mut at = 0;
    let mut lines = 0u64;
    while at < bytes.len() {
        let (line, behind) = first_line(&bytes[at..]);
        if is_separator(line) {
            return Parts {
                document: &bytes[..at],
                script: behind,
                first_line: lines + 2,
            };
        }
        at += line.len();
        lines += 1;
    }
    Parts {
        document: bytes,
        script: &bytes[at..],
        first_line: lines + 2,
    }
}

// Whether a line is `%%`, which one carriage return may end.
fn is_separator(line: &[u8]) -> bool
    ensures { result ≡ is_separator line.now }
{
    line == b"%%\n".as_slice()
        || line == b"%%\r\n".as_slice()
        || line == b"%%".as_slice()
        || line == b"%%\r".as_slice()
}

/// The first line of a text with its line feed, and what stands behind it. The cost is the line's length.
pub fn first_line(text: &[u8]) -> (&[u8], &[u8])
    ensures line { result.0.now ≡ take (line_length text.now) text.now }
    ensures behind { result.1.now ≡ drop (line_length text.now) text.now }
{
    text.split_at(line_length(text))
}

// How many bytes the first line of a text has, with its line feed.
fn line_length(text: &[u8]) -> usize
    ensures { result ≡ line_length text.now }
{
    let mut at = 0;
    while at < text.len() && text[at] != b'\n' {
        at += 1;
    }
    if at < text.len() { at + 1 } else { at }
}

/// The document of a job: what stands before the first line that is exactly `%%`, which one carriage return
/// may end, and all of it where there is none. It takes no memory; the cost is the document's length.
///
/// Source: our own (docs/FORMATS.md, "Jobs").
pub fn doc_part(bytes: &[u8]) -> &[u8]
    ensures { result.now ≡ document_text bytes.now }
{
    parts_of(bytes).document
}
