ghost use Rattle.std.specs.Prelude.{MatchOption};
ghost use Rattle.msg_template.specs.Reading.{Cut, Lacks};

/// What stands before the first of these marks, and what stands behind it.
pub fn cut<'a>(text: &'a str, mark: &str) -> Option<(&'a str, &'a str)>
    ensures { MatchOption result (Lacks mark.now text.now)
        (λ p. Cut mark.now text.now p.0.now p.1.now) }
{
    text.split_once(mark)
}
