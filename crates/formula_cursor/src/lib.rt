// A place in a formula's text, by value. Its methods skip blanks, take a token and hand the cursor back.
#![tactic(auto)]

ghost use Rattle.std.specs.Prelude.{◌≤◌, length};
ghost use Rattle.actl.specs.inner.Cursor.{Skipped};
ghost use Rattle.formula_cursor.specs.inner.CursorReplies.{MarkAnswer, TokenAnswer, KeywordAnswer, NameAnswer};

#[derive(Clone, Copy)]
pub struct Cursor {
    pub at: usize,
}

impl Cursor {
    // 01: "Blanks may stand between tokens"
    pub fn skip_blanks(self, text: &[u8]) -> Cursor
        requires { self.at ≤ length text.now }
        ensures { Skipped text.now self.at result.at }
    {
        // A `for` over the places makes the frame of `set` in formula_sets 32 bytes longer.
        let mut i = self.at;
        while i < text.len() && text[i] == b' ' {
            i += 1;
        }
        Cursor { at: i }
    }

    // Past a byte; or the byte does not stand at the cursor.
    pub fn mark(self, text: &[u8], mark: u8) -> Option<Cursor>
        ensures { MarkAnswer text.now self.at mark result }
    {
        let at = self.at;
        if at < text.len() && text[at] == mark {
            return Some(Cursor { at: at + 1 });
        }
        None
    }

    // A mark, and the blanks behind it.
    pub fn token(self, text: &[u8], mark: u8) -> Option<Cursor>
        ensures { TokenAnswer text.now self.at mark result }
    {
        let d = self.mark(text, mark)?;
        Some(d.skip_blanks(text))
    }

    // 01: "Tokens are the keywords EX, AX and EU"
    pub fn keyword(self, text: &[u8], word: &[u8; 2]) -> Option<Cursor>
        ensures { KeywordAnswer text.now self.at word.now result }
    {
        let d = self.mark(text, word[0])?;
        d.mark(text, word[1])
    }

    // The longest name that stands here.
    pub fn name(self, text: &[u8]) -> Option<Cursor>
        requires { self.at ≤ length text.now }
        ensures { NameAnswer text.now self.at result }
    {
        let at = self.at;
        let end = label_names::read_name(text, at).end;
        if end == at {
            return None;
        }
        Some(Cursor { at: end })
    }
}
