ghost use Rattle.std.specs.Prelude.{◌≡◌, ◌<◌};
ghost use Rattle.fv_lines.specs.declared.numbers.TheConstants.{MOST};
ghost use Rattle.cnf_text.specs.Dimacs.{literal_of};

use fv_lines::number_up_to;

/// The literal of one of so many variables, or 0.
pub(crate) fn literal(word: &[u8], vars: u64) -> Option<i64>
    requires { vars < MOST }
    ensures value { result ≡ literal_of vars word.now }
{
    match word {
        [b'-', digits @ ..] => {
            let var = number_up_to(digits, vars)?;
            Some(-(var as i64))
        }
        _ => {
            let var = number_up_to(word, vars)?;
            Some(var as i64)
        }
    }
}
