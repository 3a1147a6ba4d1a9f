// Canonical texts.
use bddl_reader::{print_domain, print_problem, read_domain, read_problem};
use std::alloc::Global;
use std::process::Abort;
use std::test::Fail;

fn assert_domain(
    rt: &impl Abort,
    alloc: Global,
    text: &[u8],
    canonical: &[u8],
) -> Result<(), Fail> {
    assert!(rt; text.len() <= 1000);
    let domain = read_domain(alloc, text)?;
    assert_eq!(rt; print_domain(alloc, &domain)?.as_slice(), canonical);
    Ok(())
}

fn assert_problem(
    rt: &impl Abort,
    alloc: Global,
    text: &[u8],
    canonical: &[u8],
) -> Result<(), Fail> {
    assert!(rt; text.len() <= 1000);
    let problem = read_problem(alloc, text)?;
    assert_eq!(rt; print_problem(alloc, &problem)?.as_slice(), canonical);
    Ok(())
}

#[test]
fn a_domain_on_one_line_is_laid_out(rt: HostRuntime) -> Result<(), Fail> {
    let text =
        b"#blackactions:action occupy:parameters(?x,?y):precondition(open(?x+0,?y)):effect(black(?x,?y-00))#whiteactions;none";
    let canonical = b"#blackactions
:action occupy
:parameters (?x, ?y)
:precondition (open(?x,?y))
:effect (black(?x,?y))
#whiteactions
";
    assert_domain(&rt, rt.alloc(), text, canonical)
}

#[test]
fn actions_keep_their_order_and_that_of_their_tests_and_atoms(rt: HostRuntime) -> Result<(), Fail> {
    let text = b"#blackactions
:action right :parameters (?x, ?y)
:precondition (NOT ( black ( ?x , 01 ) )open(?x,?y)NOT(open(?x+1,?y)))
:effect ( black(?x,?y)  black(?x+1,?y) )
:action wait :parameters (?x, ?y) :precondition () :effect ( )
#whiteactions
:action left-2 :parameters (?x, ?y) :precondition (open(?x-2,ymin)) :effect (white(xmax,?y))
:action a :parameters (?x, ?y) :precondition () :effect (open(xmin,ymax))
";
    let canonical = b"#blackactions
:action right
:parameters (?x, ?y)
:precondition (NOT(black(?x,1)) open(?x,?y) NOT(open(?x+1,?y)))
:effect (black(?x,?y) black(?x+1,?y))
:action wait
:parameters (?x, ?y)
:precondition ()
:effect ()
#whiteactions
:action left-2
:parameters (?x, ?y)
:precondition (open(?x-2,ymin))
:effect (white(xmax,?y))
:action a
:parameters (?x, ?y)
:precondition ()
:effect (open(xmin,ymax))
";
    assert_domain(&rt, rt.alloc(), text, canonical)
}

#[test]
fn a_problem_on_one_line_is_laid_out(rt: HostRuntime) -> Result<(), Fail> {
    let text =
        b"#boardsize 02 2 #init () #depth 0 #first black #blackgoals (black(xmin,02)) #whitegoals";
    let canonical =
        b"#boardsize 2 2\n#init ()\n#depth 0\n#blackgoals\n(black(xmin,2))\n#whitegoals\n";
    assert_problem(&rt, rt.alloc(), text, canonical)
}

#[test]
fn a_problem_keeps_its_cells_its_first_side_and_its_lines(rt: HostRuntime) -> Result<(), Fail> {
    let text = b"#boardsize 16 007
#init (black(1,1)white(2,01) open(16,7))
#depth 031 #first white
#blackgoals (black(?x,?y) NOT(black(?x+01,?y-2))open(3,ymin)) () (white(xmax,ymax))
#whitegoals
(white(?x-999999999,?y+999999999)) ()
";
    let canonical = b"#boardsize 16 7
#init (black(1,1) white(2,1) open(16,7))
#depth 31
#first white
#blackgoals
(black(?x,?y) NOT(black(?x+1,?y-2)) open(3,ymin))
()
(white(xmax,ymax))
#whitegoals
(white(?x-999999999,?y+999999999))
()
";
    assert_problem(&rt, rt.alloc(), text, canonical)
}
