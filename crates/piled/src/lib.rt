// The line that tells how a link of many files went.
#![tactic(auto)]

ghost use Rattle.said.specs.Saying.{Says};
ghost use Rattle.pile.specs.declared.Added.TheVariants.{Refused};
ghost use Rattle.piled.specs.Lines.{say_piled};

use pile::{Added, PileRefusal};
use said::{ANSWER_ROOM, Said, Why};
use tasks::Mistake;

// The refusal of a pile.
fn refused(x: PileRefusal, line: &mut [u8; ANSWER_ROOM]) -> Said
    ensures { Says (say_piled (Refused x)) line.old result line.new }
{
    let link = x.why;
    let step = x.step as u64;
    let which = link.which;
    let why = link.why;
    let no = why.no as u64;
    let place = why.place as u64;
    let a = text::put_labelled(line, 0, b"refused ", outcomes::which_number(which));
    let b = text::put_labelled(line, a, b" ", no);
    let c = text::put_labelled(line, b, b" ", place);
    let d = text::put_labelled(line, c, b" step ", step);
    let length = text::put_bytes(line, d, b"\n");
    Said {
        length,
        why: Why::Refused(why),
    }
}

// What a pile answered.
pub fn say(added: Added, line: &mut [u8; ANSWER_ROOM]) -> Said
    ensures { Says (say_piled added) line.old result line.new }
{
    match added {
        Added::Grown(pile) => said::numbered(b"written ", pile.length as u64, line),
        Added::Refused(x) => refused(x, line),
        Added::Full => tasks::tell(Mistake::Files, line),
    }
}
