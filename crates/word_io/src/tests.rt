// `run` with an answer that has no writing of its own.
ghost use Rattle.std.specs.Prelude.{[], ◌∷◌};

use crate::{Answer, run};
use text_line::Line;

// Two lines, "a" and "b", to any words and input.
struct TwoLines;

impl Answer for TwoLines {
    ghost page = { λ words input. (97 ∷ []) ∷ (98 ∷ []) ∷ [] };

    #[tactic(auto, unfolding(text_line::specs::Line::cut))]
    fn line(&self, _words: &[u8], _input: &[u8], n: usize) -> Option<Line> {
        match n {
            0 => Some(Line::new().text(b"a")),
            1 => Some(Line::new().text(b"b")),
            _ => None,
        }
    }
}

#[test]
fn each_line_is_counted(rt: HostRuntime) {
    let mut outcome = Ok(());
    assert_eq!(rt; run(&TwoLines, &rt, &mut outcome), 2);
    assert!(rt; outcome.is_ok());
}
