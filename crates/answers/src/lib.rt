// Document 01, "Numbers a call answers with": the number of each answer.
#![tactic(auto)]

ghost use Rattle.std.specs.Prelude.{◌≡◌};
ghost use Rattle.manual.specs.Answers.{number_answered};

use manual::Refusal;

// 0 where the call was done, else the number of the refusal.
pub fn number<T: Drop>(answer: Result<T, Refusal>) -> u8
    ensures { result ≡ number_answered answer }
{
    match answer {
        Ok(_) => 0,
        Err(refusal) => u8::from(refusal),
    }
}
