//! That faults and the outside in memory may be shared among threads.

use crate::files::FileFault;
use crate::mem_files::MemFiles;
use crate::mem_out::MemOut;
use crate::out::OutFault;
use crate::sure_files::SureFiles;
use crate::sure_out::SureOut;

fn is_shared<T: Send + Sync>(_value: &T) {}

pub(crate) fn faults_are_shared(file: &FileFault, out: &OutFault) {
    is_shared(file);
    is_shared(out);
}

/// The outside in memory may be shared too.
pub(crate) fn outside_is_shared(sure: (&SureFiles, &SureOut), mem: (&MemFiles, &MemOut)) {
    is_shared(sure.0);
    is_shared(sure.1);
    is_shared(mem.0);
    is_shared(mem.1);
}
