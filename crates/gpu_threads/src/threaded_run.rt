use gpu_house::Report;
use live_view::Look;
use result_words::Dumps;

/// What a run on threads leaves:
/// - the report, with the journal
/// - what each viewer saw, in the order of the viewers: 16 looks while the run went on, and one more at the whole journal
/// - what the client of each stream read of its dumps, in the order of the streams; a lost stream has none
#[derive(Drop)]
pub struct ThreadedRun {
    /// The report.
    pub report: Report,
    /// The looks of each viewer.
    pub looks: Vec<Vec<Look>>,
    /// The dumps of each stream.
    pub dumps: Vec<Dumps>,
}
