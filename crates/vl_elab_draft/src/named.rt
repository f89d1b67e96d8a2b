use fv_text::Text;
use vl_mean::Const;

/// A name with the constant that it means.
#[derive(Drop)]
pub(crate) struct Named {
    pub(crate) text: Text,
    pub(crate) value: Const,
}
