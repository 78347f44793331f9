// What a report is. Uses the standard library.

// The text of a report, and whether the sheet was accepted. The text is there either way, and `accepted` only
// tells which exit status a program ends with; so they are two fields, and no `Option` or `Result`.
#[derive(Drop)]
pub struct Report {
    pub text: String,
    pub accepted: bool,
}
