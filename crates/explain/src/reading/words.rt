ghost use Rattle.std.specs.Iterator.{YieldsFirstRef, item_count};

/// The words of a text that are still to be read; single spaces part them.
#[derive(Drop)]
pub struct Words<'a> {
    pub rest: Option<&'a str>,
}

impl<'a> Iterator for Words<'a> {
    ghost use Rattle.explain.specs.LineReading.{words_left};

    type Item = &'a str;

    ghost next_gives = { YieldsFirstRef words_left };

    ghost remaining = { item_count words_left };

    fn next(&mut self) -> Option<&'a str> {
        let text = self.rest?;
        match text.split_once(' ') {
            Some((word, rest)) => {
                self.rest = Some(rest);
                Some(word)
            }
            None => {
                self.rest = None;
                Some(text)
            }
        }
    }
}
