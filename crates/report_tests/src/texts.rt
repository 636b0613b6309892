// Slips, each with the report of it.
use report::slip_report;
use std::test::Fail;

const REPORTS: [(&[u8], &str); 8] = [
    (b"", "line,M,C\n1,20,20\n"),
    (b"edit,tag\n", "line,M,C\n1,20,20\n"),
    (b"edit,tag,parent,couplings,run,drop", "line,M,C\n1,25,25\n"),
    (b"edit,tag,parent,couplings,run,drop\n", "line,M,C\n"),
    (
        b"edit,tag,parent,couplings,run,drop\nG,2,1,0,300,50\nS,2,0,0,0,0\n",
        "line,M,C\n2,0,0\n3,0,0\n",
    ),
    // ten couplings are too many in kind C, and kind M does not read them
    (
        b"edit,tag,parent,couplings,run,drop\nG,2,1,10,300,50\nG,3,2,0,300,50\n",
        "line,M,C\n2,0,3\n3,0,7\n",
    ),
    // a run of couplings alone is none in kind M
    (
        b"edit,tag,parent,couplings,run,drop\nG,2,1,1,0,0\nG,257,1,1,5,0\nS,256,0,0,0,0\n",
        "line,M,C\n2,3,0\n3,1,1\n4,9,9\n",
    ),
    // a fault ends the rows: the good row after it is not reported
    (
        b"edit,tag,parent,couplings,run,drop\nG,2,1,0,300,50\nS,2,0,0,0,7\nG,3,1,0,300,50\n",
        "line,M,C\n2,0,0\n3,24,24\n",
    ),
];

#[test]
fn a_report_has_a_line_for_each_row_and_for_the_fault(rt: HostRuntime) -> Result<(), Fail> {
    for (i, (slip, text)) in REPORTS.iter().enumerate() {
        let report = slip_report(rt.alloc(), *slip)?;
        assert!(rt; report.as_str() == *text, "in case {i}");
    }
    Ok(())
}

#[test]
fn a_slip_that_is_too_long_has_no_line(rt: HostRuntime) -> Result<(), Fail> {
    let slip = vec![in rt.alloc(); b'g'; 65_537]?;
    let report = slip_report(rt.alloc(), slip.as_slice())?;
    assert!(rt; report.as_str() == "line,M,C\n0,19,19\n");
    Ok(())
}
