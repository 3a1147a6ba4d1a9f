// Laws of the grammar and of canonical texts.

ghost use Rattle.std.specs.Prelude.{◌≡◌, List, IsTrue};
ghost use Rattle.bddl_model.specs.declared.texts.DomainText.{DomainText};
ghost use Rattle.bddl_model.specs.declared.texts.ProblemText.{ProblemText};
ghost use Rattle.bddl_model.specs.Tokens.{Lexeme};
ghost use Rattle.bddl_model.specs.Grammar.{domain, problem};
ghost use Rattle.bddl_model.specs.Reading.{Reads};
ghost use Rattle.bddl_model.specs.Canonical.{domain_text, problem_text, domain_can_be_spelled, problem_can_be_spelled};

/// A law: a list of tokens is one domain at most.
pub fn domain_tree_is_one()
    ensures { (ws : List Lexeme) (p q : DomainText) → domain ws p → domain ws q → p ≡ q }
{}

/// A law: a list of tokens is one problem at most.
pub fn problem_tree_is_one()
    ensures { (ws : List Lexeme) (p q : ProblemText) → problem ws p → problem ws q → p ≡ q }
{}

/// A law: what is read from the canonical text of a domain has that text again.
pub fn canonical_domain_stays()
    ensures { (d e : DomainText) → IsTrue (domain_can_be_spelled d) → Reads domain (domain_text d) e → domain_text e ≡ domain_text d }
{}

/// A law: what is read from the canonical text of a problem has that text again.
pub fn canonical_problem_stays()
    ensures { (p q : ProblemText) → IsTrue (problem_can_be_spelled p) → Reads problem (problem_text p) q → problem_text q ≡ problem_text p }
{}
