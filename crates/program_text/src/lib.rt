//! What the words of a program share: the status that the process ends with, texts that are read
//! whole or opened by their names, a relay's configuration and a plan that are read whole, output
//! that is written whole, and the version.
#![tactic(auto)]

mod counted;
mod digits;
mod folder;
mod opening;
mod output;
mod plan_text;
mod reading;
mod relay_text;
mod status;
mod stop;
mod version;

pub use counted::CountedRead;
pub use digits::put_hex;
pub use folder::{FileText, Folder, NamedFile};
pub use opening::Open;
pub use output::{OutputFault, put_all, put_last};
pub use plan_text::{PlanStop, plan_stop, read_confs, read_plan};
pub use reading::{MOST_READS, PIECE, ReadFault, read_named, read_whole};
pub use relay_text::{ConfStop, read_relay};
pub use status::Status;
pub use stop::{print_conf_stop, print_plan_stop, stop_line, unread_line};
pub use version::{VERSION, print_version};
