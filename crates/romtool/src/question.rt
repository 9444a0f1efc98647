//! What a question asks of an image.
ghost use Rattle.std.specs.Prelude.{◌≡◌};
ghost use Rattle.romtool.specs.Questions.{asked_of as asked_in};

use command_line::Question;
use rom_commands::Asked;

/// Returns what a question asks of an image whose file has this number of bytes.
pub fn asked_of(question: Question, len: u64) -> Asked
    ensures { result ≡ asked_in question len }
{
    match question {
        Question::Report => Asked::Report,
        Question::List => Asked::List,
        Question::Facts => Asked::Facts(len),
        Question::Fit(limit) => Asked::Fit { file: len, limit },
        Question::Runs(base) => Asked::Map(base),
        Question::Misreads => Asked::Misreads,
        Question::Needs => Asked::Needs,
        Question::InPlace(programs) => Asked::Programs(program_report::Question {
            base: programs.base,
            no_mmu: programs.no_mmu,
            advice: programs.advice,
        }),
    }
}
