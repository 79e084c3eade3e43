// The claims about the report, each the contract of a function that does nothing.
ghost use Rattle.report.specs.Claims.{ReportClaim, WorkSuffices, TableSuffices, FewLanes};

// No input is refused with 5.
pub fn work_suffices()
    ensures work_suffices { WorkSuffices }
{}

// No input is refused with 21.
pub fn table_suffices()
    ensures table_suffices { TableSuffices }
{}

// What opens has at most the lanes that there are lines for, and 65,536 bytes can have as many.
pub fn few_lanes()
    ensures few_lanes { FewLanes }
{}

// What is reported of an input that is too long, of one that does not open, and of one that does.
pub fn reports()
    ensures reports { ReportClaim }
{}
