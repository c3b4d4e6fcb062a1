//! What a run answers and writes: how it ends and what it puts out, the case in a file, the commands `pages` and
//! `show`, which ask for one file alone, and `--help` and `--version`, which ask for none.
#![tactic(auto)]

mod blocks;
mod case;
mod fault;
mod notice;
mod output;
mod pages;
mod show;
mod status;
mod text;
mod write;

pub use case::{CaseOpening, open_case, refuse_files};
pub use fault::RunFault;
pub use notice::notice_output;
pub use output::{
    Output, Unit, bad_bound_output, case_refused_output, key_too_large_output, report_output,
    too_large_output,
};
pub use pages::pages_output;
pub use show::show_output;
pub use status::{Answer, Ending, Status};
pub use write::write_text;
