//! What the line on standard output says of a refusal, or of a certificate that is not valid.

/// The text that was refused.
#[derive(Clone, Copy)]
pub enum Subject {
    Program,
    Certificate,
    Query,
}

impl Subject {
    /// Whether it is the query.
    pub(crate) fn is_query(self) -> bool {
        matches!(self, Subject::Query)
    }
}

/// A line `refused(Subject,Line,Column,Kind).`
#[derive(Clone, Copy)]
pub struct ToldRefusal {
    pub subject: Subject,
    pub line: u64,
    pub column: u64,
    pub kind: u64,
}

/// A line `no(Line,Reason).`
#[derive(Clone, Copy)]
pub struct ToldNo {
    pub line: u64,
    pub reason: u64,
}

/// The subject that a field names.
fn subject_named(field: Option<&str>) -> Option<Subject> {
    match field? {
        "program" => Some(Subject::Program),
        "certificate" => Some(Subject::Certificate),
        "query" => Some(Subject::Query),
        _ => None,
    }
}

/// The number of a field.
fn number(field: Option<&str>) -> Option<u64> {
    field?.parse::<u64>().ok()
}

/// What stands between the beginning of an output and the first `)` after it.
fn fields_after<'a>(output: &'a str, beginning: &str) -> Option<&'a str> {
    match output.strip_prefix(beginning)?.split_once(')') {
        Some((fields, _)) => Some(fields),
        None => None,
    }
}

impl ToldRefusal {
    /// What the beginning of an output says, if it is such a line.
    pub fn read(output: &str) -> Option<ToldRefusal> {
        let mut fields = fields_after(output, "refused(")?.split(',');
        if let Some(subject) = subject_named(fields.next())
            && let Some(line) = number(fields.next())
            && let Some(column) = number(fields.next())
            && let Some(kind) = number(fields.next())
        {
            return Some(ToldRefusal {
                subject,
                line,
                column,
                kind,
            });
        }
        None
    }
}

impl ToldNo {
    /// What the beginning of an output says, if it is such a line.
    pub fn read(output: &str) -> Option<ToldNo> {
        if let Some(fields) = fields_after(output, "no(")
            && let Some((line, reason)) = fields.split_once(',')
            && let Some(line) = number(Some(line))
            && let Some(reason) = number(Some(reason))
        {
            return Some(ToldNo { line, reason });
        }
        None
    }
}
