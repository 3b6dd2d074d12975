//! A listing within one line, for an answer in a batch.
ghost use Rattle.std.specs.Prelude.{◌≡◌};
ghost use Rattle.lines.specs.Tabs.{tab, tabbed};

// A newline as a tab, any other byte as it is.
fn tab_byte(b: u8) -> u8
    ensures { result ≡ tab b }
{
    if b == 10 {
        return 9;
    }
    b
}

/// Each newline of the text as a tab.
pub fn tab_newlines(text: &mut [u8])
    ensures { text.new ≡ tabbed text.old }
{
    for i in 0..text.len() {
        text[i] = tab_byte(text[i]);
    }
}
