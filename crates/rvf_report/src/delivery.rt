use fv_text::Text;

/// What a run leaves outside.
#[derive(Debug, Drop)]
pub enum Delivery {
    /// A file is made to hold the bytes.
    File { name: Text, bytes: Text },
    /// A line is put on the output, its line feed included.
    Line(Text),
}
