//! That what is read of a clause file and of a proof is what they say.
ghost use Rattle.std.specs.Prelude.{◌≡◌, ◌≤◌, ◌↔◌, ℕ, List, Ok, length};
ghost use Rattle.fv_lines.specs.Words.{lines, words};
ghost use Rattle.cnf_form.specs.Cnf.{Cnf, AreClauses};
ghost use Rattle.cnf_text.specs.Dimacs.{dimacs_text, formula_of, HaveNoEnd};
ghost use Rattle.lrat_check.specs.Texts.{lrat_text, steps_of, AreShort};
ghost use Rattle.lrat_check.specs.declared.step.Step.{Step};
ghost use Rattle.lrat_texts.specs.Lines.{AreLines, AreWords};
ghost use Rattle.lrat_texts.specs.Formulas.{SaysFormula};
ghost use Rattle.lrat_texts.specs.Steps.{SaysSteps};

/// A text has exactly the lines that make it up.
pub fn texts_are_made_of_lines()
    ensures { (bytes : List ℕ) (ls : List (List ℕ)) → (lines bytes ≡ ls) ↔ AreLines bytes ls }
{}

/// A line has exactly the words that make it up, with blanks.
pub fn lines_are_made_of_words()
    ensures { (line : List ℕ) (ws : List (List ℕ)) → (words line ≡ ws) ↔ AreWords line ws }
{}

/// A clause file is read as a formula exactly where it says this formula.
pub fn clause_files_say_what_is_read()
    ensures { (bytes : List ℕ) (formula : Cnf) → (formula_of bytes ≡ Ok formula) ↔ SaysFormula bytes formula }
{}

/// A proof is read as steps exactly where it says these steps.
pub fn proofs_say_what_is_read()
    ensures { (bytes : List ℕ) (steps : List Step) → (steps_of bytes ≡ Ok steps) ↔ SaysSteps bytes steps }
{}

/// No text says two formulas, nor two lists of steps.
pub fn texts_say_one_thing()
    ensures formula { (bytes : List ℕ) (f g : Cnf) → SaysFormula bytes f → SaysFormula bytes g → f ≡ g }
    ensures steps { (bytes : List ℕ) (xs ys : List Step) → SaysSteps bytes xs → SaysSteps bytes ys → xs ≡ ys }
{}

/// What is written says what was written: a formula within the limits of the format, and steps of short numbers.
pub fn texts_say_what_was_written()
    ensures formula { (notes : List (List ℕ)) (formula : Cnf) → HaveNoEnd notes → formula.vars ≤ 100000000
        → length formula.clauses ≤ 100000000 → AreClauses formula.vars formula.clauses
        → SaysFormula (dimacs_text notes formula) formula }
    ensures steps { (steps : List Step) → AreShort steps → SaysSteps (lrat_text steps) steps }
{}
