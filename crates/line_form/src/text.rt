// The lines of a text, each with its LF.
ghost use Rattle.std.specs.Prelude.{◌≡◌, ◌==◌, ◌+◌, ◌≤◌, length, drop, position};
ghost use Rattle.line_form.specs.Lines.{line_length};

// Where the first LF of a text is.
fn line_feed(text: &[u8]) -> Option<usize>
    ensures { result ≡ position (λ b. b == 10) text.now }
{
    text.iter().position(|b| *b == b'\n')
}

// The end of the line that starts at a position: behind its LF, or the end of the text.
pub fn line_end(text: &[u8], at: usize) -> usize
    requires { at ≤ length text.now }
    ensures { result ≡ at + line_length (drop at text.now) }
{
    match line_feed(&text[at..]) {
        Some(i) => at + i + 1,
        None => text.len(),
    }
}
