ghost use Rattle.std.specs.Prelude.{◌≡◌, option_map};
ghost use Rattle.ic_serve.specs.Calls as definition;
ghost use Rattle.ic_serve.specs.Calls.{names_seen};

use ic_base::Word;
use ic_plan::{ServedNames, any_dashed};

/// The names of a scenario and maybe a policy, which one word or two are; no word begins with `-`.
pub(crate) fn names_of<'a>(words: &'a [Word]) -> Option<ServedNames<'a>>
    ensures { option_map names_seen result ≡ definition.names_of words.now }
{
    if any_dashed(words) {
        return None;
    }
    match words {
        [scenario] => Some(ServedNames {
            scenario,
            policy: None,
        }),
        [scenario, policy] => Some(ServedNames {
            scenario,
            policy: Some(policy),
        }),
        _ => None,
    }
}
