//! Examples of contract tables and node records that are read or refused, and of what is printed of tables, by hand from
//! the rules.
#![tactic(auto)]

#[cfg(test)]
mod tests {
    use contract_report::contract_report;
    use contracts::ContractRow;
    use credits::NodeRecord;
    use files::{FileFault, LineText, read_rows};
    use std::alloc::Global;
    use std::test::Fail;

    // A contract table, and how many rows it has, or the line that is refused.
    const CONTRACTS: [(&str, Result<usize, FileFault>); 21] = [
        ("", Ok(0)),
        ("0,1000,1,2,\n", Ok(1)),
        ("0,1000,1,2,3\n1,0,0,0,0\n", Ok(2)),
        (
            "2000000000,2000000000,2000000000,2000000000,2000000000\n",
            Ok(1),
        ),
        ("0,2000000001,1,2,\n", Err(FileFault::Unreadable(1))),
        ("0,1000,1,2,2000000001\n", Err(FileFault::Unreadable(1))),
        (
            "0,18446744073709551616,1,2,\n",
            Err(FileFault::Unreadable(1)),
        ),
        ("0,1000,1,2,", Err(FileFault::Unreadable(1))),
        ("0,1000,1,2,\n0,1000,1,2,3", Err(FileFault::Unreadable(2))),
        ("01,1000,1,2,\n", Err(FileFault::Unreadable(1))),
        ("0,1000,1,2,00\n", Err(FileFault::Unreadable(1))),
        ("+1,1000,1,2,\n", Err(FileFault::Unreadable(1))),
        ("0,-1,1,2,\n", Err(FileFault::Unreadable(1))),
        ("0,,1,2,\n", Err(FileFault::Unreadable(1))),
        ("0, 1000,1,2,\n", Err(FileFault::Unreadable(1))),
        ("0,1000,1,2\n", Err(FileFault::Unreadable(1))),
        ("0,1000,1,2,3,4\n", Err(FileFault::Unreadable(1))),
        ("0,1000,1,2,\r\n", Err(FileFault::Unreadable(1))),
        ("\n", Err(FileFault::Unreadable(1))),
        ("0,1000,1,2,\n\n", Err(FileFault::Unreadable(2))),
        (
            "0,1000,1,2,\n1,1,1,1,1\n0,x,1,2,\n",
            Err(FileFault::Unreadable(3)),
        ),
    ];

    // Node records, and how many there are, or the line that is refused.
    const NODES: [(&str, Result<usize, FileFault>); 12] = [
        ("", Ok(0)),
        ("0,0,0,0\n", Ok(1)),
        ("1,20,-300,4000\n0,0,5,-6\n", Ok(2)),
        ("0,0,2000000000,-2000000000\n", Ok(1)),
        ("0,0,2000000001,0\n", Err(FileFault::Unreadable(1))),
        ("0,0,0,-2000000001\n", Err(FileFault::Unreadable(1))),
        ("0,0,-0,0\n", Err(FileFault::Unreadable(1))),
        ("0,0,-01,0\n", Err(FileFault::Unreadable(1))),
        ("0,0,--1,0\n", Err(FileFault::Unreadable(1))),
        ("0,0,0,-\n", Err(FileFault::Unreadable(1))),
        ("-1,0,0,0\n", Err(FileFault::Unreadable(1))),
        ("0,0,0,0\n0,0,0\n", Err(FileFault::Unreadable(2))),
    ];

    // A contract table, and what is printed of it. The first two differ in one cell: the last segment of the second names
    // the first as its next.
    const REPORTS: [(&str, &str); 6] = [
        (
            "0,60000,0,1,1\n1,35000,1,2,2\n0,50000,2,0,\n2,20000,3,1,1\n",
            "contracts: 4 rows\nchain 0: row 0 party 0 capacity 60000 receipt 0 delivery 1\nchain 0: row 1 party 1 capacity 35000 receipt 1 delivery 2\nchain 0: row 2 party 0 capacity 50000 receipt 2 delivery 0\nchain 3: row 3 party 2 capacity 20000 receipt 3 delivery 1\nchain 3: row 1 party 1 capacity 35000 receipt 1 delivery 2\nchain 3: row 2 party 0 capacity 50000 receipt 2 delivery 0\n",
        ),
        (
            "0,60000,0,1,1\n1,35000,1,2,2\n0,50000,2,0,0\n2,20000,3,1,1\n",
            "contracts: refused 5 table 0\n",
        ),
        ("", "contracts: 0 rows\n"),
        (
            "0,1000000,0,1,\n0,1000001,1,2,\n",
            "contracts: refused 2 table 1\n",
        ),
        ("0,1,0,1,1\n0,1,1,2,2\n", "contracts: refused 3 table 1\n"),
        ("0,1,0,1,1\n0,1,2,2,\n", "contracts: refused 4 table 0\n"),
    ];

    fn rows_in<R: LineText + Drop>(heap: Global, text: &str) -> Result<usize, FileFault> {
        Ok(read_rows::<R>(heap, text.as_bytes())?.len())
    }

    fn report_of(heap: Global, text: &str) -> Result<String, FileFault> {
        let rows = read_rows(heap, text.as_bytes())?;
        Ok(contract_report(heap, rows.as_slice())?)
    }

    #[test]
    fn reports(rt: HostRuntime) -> Result<(), Fail> {
        for (text, wanted) in REPORTS {
            let report = report_of(rt.alloc(), text).map_err(|_| Fail::new("a table is not read"))?;
            assert_eq!(rt; report.as_str(), wanted);
        }
        Ok(())
    }

    #[test]
    fn files(rt: HostRuntime) {
        for (text, wanted) in CONTRACTS {
            assert_eq!(rt; rows_in::<ContractRow>(rt.alloc(), text), wanted);
        }
        for (text, wanted) in NODES {
            assert_eq!(rt; rows_in::<NodeRecord>(rt.alloc(), text), wanted);
        }
    }
}
