ghost use Rattle.std.specs.Prelude.{◌≡◌, true};
ghost use Rattle.std.specs.Str.{is_utf8};

/// A text that a value borrows.
#[derive(Clone, Copy, Debug)]
pub struct Text<'a> {
    text: &'a str,
    ghost utf8: { is_utf8 text.now ≡ true },
}

impl<'a> Text<'a> {
    /// The text itself, in the form that a value has it.
    #[inline]
    pub(crate) fn new(text: &'a str) -> Text<'a>
        ensures { result.text.now ≡ text.now }
    {
        Text { text }
    }

    /// The characters, without quotes and with the escapes resolved.
    #[inline]
    pub fn as_str(&self) -> &'a str
        ensures { result.now ≡ self.now.text.now }
    {
        self.text
    }
}
