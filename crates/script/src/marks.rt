// A text as lines, and a line as words.
ghost use Rattle.std.specs.Prelude.{◌≡◌, ◌==◌, not, IfSome};
ghost use Rattle.std.specs.Iterator.{YieldsFirstRef, item_count};
ghost use Rattle.std.specs.List.{position};
ghost use Rattle.script.specs.Lines.{
  before,
  behind,
  newline,
  lines,
  is_blank,
  words,
  past_word,
  past_blanks,
};

// Where a byte stands first.
fn place_of(text: &[u8], byte: u8) -> Option<usize>
    ensures { result ≡ position (λ b. b == byte) text.now }
{
    text.iter().position(|b| *b == byte)
}

// What stands before the first such byte, all of it where there is none, and what stands behind it.
pub fn cut(text: &[u8], byte: u8) -> (&[u8], &[u8])
    ensures front { result.0.now ≡ before byte text.now }
    ensures back { result.1.now ≡ behind byte text.now }
{
    let end = place_of(text, byte).unwrap_or(text.len());
    (&text[..end], &text[(end + 1).min(text.len())..])
}

// The lines of a text that are left.
#[derive(Drop)]
pub struct Lines<'a> {
    pub rest: &'a [u8],
}

impl<'a> Iterator for Lines<'a> {
    type Item = &'a [u8];

    // The first line, and the rest is what is behind it.
    ghost next_gives = { λ s r t. YieldsFirstRef (λ s. lines s.rest.now) s r t × IfSome r (λ _. t.rest.now ≡ behind newline s.rest.now) };

    ghost remaining = { item_count (λ s. lines s.rest.now) };

    fn next(&mut self) -> Option<&'a [u8]> {
        if self.rest.is_empty() {
            return None;
        }
        let (line, rest) = cut(self.rest, b'\n');
        self.rest = rest;
        Some(line)
    }
}

fn is_blank(byte: u8) -> bool
    ensures { result ≡ is_blank byte }
{
    matches!(byte, b' ' | b'\t')
}

// Where the first word of a line starts, and where its first blank stands.
fn word_of(line: &[u8]) -> Option<usize>
    ensures { result ≡ position (λ b. not (is_blank b)) line.now }
{
    line.iter().position(|b| !is_blank(*b))
}

fn blank_of(line: &[u8]) -> Option<usize>
    ensures { result ≡ position is_blank line.now }
{
    line.iter().position(|b| is_blank(*b))
}

// The words of a line that are left.
#[derive(Drop)]
pub struct Words<'a> {
    pub rest: &'a [u8],
}

impl<'a> Iterator for Words<'a> {
    type Item = &'a [u8];

    // The first word, and the rest is what is behind it.
    ghost next_gives = { λ s r t. YieldsFirstRef (λ s. words s.rest.now) s r t × IfSome r (λ _. t.rest.now ≡ past_word (past_blanks s.rest.now)) };

    ghost remaining = { item_count (λ s. words s.rest.now) };

    fn next(&mut self) -> Option<&'a [u8]> {
        let start = word_of(self.rest)?;
        let (_, line) = self.rest.split_at(start);
        let end = blank_of(line).unwrap_or(line.len());
        let (word, rest) = line.split_at(end);
        self.rest = rest;
        Some(word)
    }
}
